// What a soak tells.
/// How many records went in, how many came out, and the sum of the numbers in their second fields.
#[derive(Clone, Copy, Debug, PartialEq, Eq)]
pub struct Summary {
    pub records: u64,
    pub keys: u64,
    pub total: i128,
}
