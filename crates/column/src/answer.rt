// What calls answer beside a `Result` with a `Refusal`.

// The counts of a batch; its offsets are one more than its keys.
#[derive(Clone, Copy)]
pub struct RleBatch {
    pub keys: usize,
    pub runs: usize,
}
