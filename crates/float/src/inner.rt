// What assumes that its caller has asked for the size.
ghost use Rattle.std.specs.Prelude.{◌≡◌, ◌≤◌, ◌^◌, nat_abs};
ghost use Rattle.float.specs.Float.{converted};

// Up to this size every whole number is a float, so one instruction converts it.
pub fn exact(x: i64) -> f64
    requires { nat_abs x ≤ 2 ^ 53 }
    ensures { result ≡ converted x }
{
    x as f64
}
