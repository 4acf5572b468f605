// Why rules of logic give nothing.
/// Why a rule gives no successors.
#[derive(Clone, Copy, Debug, PartialEq, Eq)]
pub enum LogicFault {
    /// The premise of this number is the first that the state does not meet.
    Premise(u8),
    NoMemory,
}
