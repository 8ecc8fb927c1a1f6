//! The causes, locations and statuses that the rules name, by their names in Q.850 and RFC 3261. The definitions have the same
//! names in specs/Names.antt; a constant that differs from its definition is refused where a function answers with it.

/// Cause 16: the user ended the call.
pub const NORMAL_CLEARING: u8 = 16;

/// Cause 17.
pub const USER_BUSY: u8 = 17;

/// Cause 21.
pub const CALL_REJECTED: u8 = 21;

/// Cause 28: the called number is no number.
pub const INVALID_NUMBER_FORMAT: u8 = 28;

/// Cause 31: also what a clearing message without a cause counts as.
pub const NORMAL_UNSPECIFIED: u8 = 31;

/// Cause 34: no channel is idle.
pub const NO_CHANNEL_AVAILABLE: u8 = 34;

/// Cause 42: there is no room for another call.
pub const SWITCHING_EQUIPMENT_CONGESTION: u8 = 42;

/// Cause 44: the requested channel is not available.
pub const CHANNEL_UNAVAILABLE: u8 = 44;

/// Cause 81: no call has this reference.
pub const INVALID_CALL_REFERENCE: u8 = 81;

/// Cause 102: an answer did not come in time.
pub const RECOVERY_ON_TIMER_EXPIRY: u8 = 102;

/// Location 0: the user.
pub const USER: u8 = 0;

/// Location 5: the private network that serves the remote user.
pub const REMOTE_PRIVATE_NETWORK: u8 = 5;

/// The first status of a response.
pub const FIRST_STATUS: u16 = 100;

/// Final responses from here on refuse.
pub const FIRST_FAILURE: u16 = 300;

/// The last status of a response.
pub const LAST_STATUS: u16 = 699;

/// Status 180.
pub const RINGING: u16 = 180;

/// Status 183.
pub const SESSION_PROGRESS: u16 = 183;

/// Status 200.
pub const OK: u16 = 200;

/// Status 404.
pub const NOT_FOUND: u16 = 404;

/// Status 408.
pub const REQUEST_TIMEOUT: u16 = 408;

/// Status 480.
pub const TEMPORARILY_UNAVAILABLE: u16 = 480;

/// Status 484.
pub const ADDRESS_INCOMPLETE: u16 = 484;

/// Status 487.
pub const REQUEST_TERMINATED: u16 = 487;

/// Status 500.
pub const SERVER_INTERNAL_ERROR: u16 = 500;

/// Status 503.
pub const SERVICE_UNAVAILABLE: u16 = 503;

/// Status 603.
pub const DECLINE: u16 = 603;
