//! What the rules make of a row. Each call of theirs stands here.
use crate::row::{Event, Trial};
use crate::shown::line_of;
use crate::stand::{CHANNEL, NUMBER, SETUP_REFERENCE, invite};
use calls::{Call, Response};
use effects::Effect;
use exchange_rules::{DialledSetup, begins, on_expiry, on_type};
use messages::{Elements, Message, MessageType, Part};
use refusals::Ground;
use sip_rules::{accepts, dialled, invited, leaves, on_cancel_expiry, on_other};
use std::alloc::{AllocError, Global};

/// A full number has four digits.
const FULL: usize = 4;

fn responds(response: Response, call: Call) -> Effect {
    match response.status {
        200..=299 => accepts(call, response),
        _ => on_other(response, call),
    }
}

fn at_call(call: Call, event: Event<'_>) -> Result<Effect, Ground> {
    match event {
        Event::Message {
            kind,
            elements,
            idle,
        } => {
            let message = Message {
                reference: call.reference,
                kind,
                elements,
            };
            on_type(FULL, idle, message, call)
        }
        Event::Expiry(timer) => on_expiry(timer, call),
        Event::CancelExpiry => on_cancel_expiry(call),
        Event::Response {
            status,
            dialogue,
            media,
        } => {
            let response = Response {
                number: NUMBER,
                status,
                dialogue,
                media,
            };
            Ok(responds(response, call))
        }
        Event::Leaving => Ok(leaves(call)),
    }
}

fn by_invite(heap: Global, digits: &[u8]) -> Result<String, AllocError> {
    match dialled(invite(digits)) {
        Ok(invite) => line_of(heap, Ok(invited(invite, CHANNEL))),
        Err(status) => format!(in heap; "status {status}"),
    }
}

fn by_setup(heap: Global, elements: Elements<Part<'_>>) -> Result<String, AllocError> {
    let message = Message {
        reference: SETUP_REFERENCE,
        kind: MessageType::Setup,
        elements,
    };
    match DialledSetup::new(message) {
        Some(setup) => line_of(heap, Ok(begins(FULL, setup, NUMBER, CHANNEL))),
        None => String::from_str(heap, "no number"),
    }
}

/// The line of what the rules make of it.
pub fn outcome(heap: Global, trial: Trial<'_>) -> Result<String, AllocError> {
    match trial {
        Trial::AtCall(call, event) => line_of(heap, at_call(call, event)),
        Trial::Invite(digits) => by_invite(heap, digits),
        Trial::Setup(elements) => by_setup(heap, elements),
    }
}
