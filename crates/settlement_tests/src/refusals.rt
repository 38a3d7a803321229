use settlement::Refusal;

// The number of a refusal, where something was refused.
pub fn number<T: Drop>(answer: Result<T, Refusal>) -> Option<u8> {
    answer.err().map(|refusal| refusal.number())
}
