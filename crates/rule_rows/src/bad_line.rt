//! Why a line of the file is neither a remark nor a heading nor a row.
use std::alloc::AllocError;
use std::num::ParseIntError;
use thiserror::Error;

#[derive(Debug, Drop, Error)]
pub enum BadLine {
    #[error("neither a heading nor a row")]
    NoRow,
    #[error("a row above the first heading")]
    NoTable,
    #[error("no such state of the exchange side")]
    NoExchangeState,
    #[error("no such state of the SIP side")]
    NoSipState,
    #[error("no such event")]
    NoEvent,
    #[error("no such field of a message")]
    NoField,
    #[error("no such timer")]
    NoTimer,
    #[error("no cause with its location")]
    NoCause,
    #[error("neither media nor silent")]
    NeitherMediaNorSilent,
    #[error("no number, or one out of its range")]
    NoNumber,
    #[error("more than 20 digits")]
    TooManyDigits,
    #[error("not enough memory")]
    NoMemory,
}

impl From<AllocError> for BadLine {
    fn from(_error: AllocError) -> Self {
        BadLine::NoMemory
    }
}

impl From<ParseIntError> for BadLine {
    fn from(_error: ParseIntError) -> Self {
        BadLine::NoNumber
    }
}
