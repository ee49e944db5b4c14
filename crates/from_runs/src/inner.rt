// Workers that assume what the calls have asked.
ghost use Rattle.std.specs.Prelude.{◌≤◌, ◌<◌, ◌≡◌, length, None};
ghost use Rattle.column.specs.Questions.{run_by_run};
ghost use Rattle.column.specs.Runs.{Fills};
ghost use Rattle.from_runs.specs.Calls.{runs_from};
ghost use Rattle.from_runs.specs.Workers.{PutRun};

// A run up to `end` at entry n, unless its length is 0: how many entries there are then.
pub fn put_run(
    out_ends: &mut [i64],
    out_values: &mut [i64],
    n: usize,
    run: i64,
    end: i64,
    value: i64,
) -> usize
    requires { (n < length out_ends.old) × (n < length out_values.old) }
    ensures { PutRun out_ends.old out_ends.new out_values.old out_values.new n run end value result }
{
    if run == 0 {
        return n;
    }
    out_ends[n] = end;
    out_values[n] = value;
    n + 1
}

// The runs of given lengths, without those of 0.
pub fn from_runs(
    runs: &[i64],
    values: &[i64],
    out_ends: &mut [i64],
    out_values: &mut [i64],
) -> usize
    requires { (length runs.now ≡ length values.now) × (run_by_run 0 0 runs.now ≡ None)
        × (length runs.now ≤ length out_ends.old) × (length runs.now ≤ length out_values.old) }
    ensures { Fills (runs_from 0 runs.now values.now) out_ends out_values result }
{
    let mut end: i64 = 0;
    let mut n: usize = 0;
    for i in 0..runs.len() {
        let run = runs[i];
        let value = values[i];
        end += run;
        n = put_run(out_ends, out_values, n, run, end, value);
    }
    n
}
