//! What a case sets for its runs.

use crate::said::{cut, number_in};
use commands::Object;

/// What a case sets for its runs.
#[derive(Clone, Copy)]
pub enum Setting<'a> {
    /// The calls of these numbers on this object fail, counted from 0.
    Fails(Object, &'a str),
    /// The calls of these numbers for the next link fail at this port.
    PortFails { port: u64, fails: &'a str },
    /// The source gives its bytes in pieces of these lengths, and then as many as it may.
    Pieces(&'a str),
    /// The sink has room for so many bytes.
    Room(u64),
    /// Only so many bytes of what the sink took are shown.
    Shown(u64),
    /// Any good set may stand behind a finding, so it isn't shown.
    AnySet,
    /// How much of the input is left unread isn't shown.
    AnyRest,
    /// Each run is made once for each place at which the input can be cut in two.
    CutEverywhere,
    /// Each run is made once for each front of the input.
    EndedEverywhere,
    /// Each run is made once for each front of each message of the input, over the rows that the messages before it left.
    MessagesEnded,
    /// The case has to come out otherwise than it says.
    Otherwise,
}

/// What a head sets, or None where it sets nothing.
pub fn setting_in<'a>(key: &str, rest: &'a str) -> Option<Setting<'a>> {
    match key {
        "fails" => fails_in(rest),
        "pieces" => Some(Setting::Pieces(rest)),
        "room" => Some(Setting::Room(number_in(rest)?)),
        "shown" => Some(Setting::Shown(number_in(rest)?)),
        "any_set" => Some(Setting::AnySet),
        "any_rest" => Some(Setting::AnyRest),
        "cut_everywhere" => Some(Setting::CutEverywhere),
        "ended_everywhere" => Some(Setting::EndedEverywhere),
        "messages_ended" => Some(Setting::MessagesEnded),
        "otherwise" => Some(Setting::Otherwise),
        _ => None,
    }
}

fn fails_in(rest: &str) -> Option<Setting<'_>> {
    let (object, numbers) = cut(rest);
    if object == "port" {
        return port_in(numbers);
    }
    let object = match object {
        "source" => Object::Source,
        "files" => Object::Files,
        "sink" => Object::Sink,
        "keeper" => Object::Keeper,
        "door" => Object::Door,
        _ => return None,
    };
    Some(Setting::Fails(object, numbers))
}

fn port_in(rest: &str) -> Option<Setting<'_>> {
    let (port, fails) = cut(rest);
    Some(Setting::PortFails {
        port: number_in(port)?,
        fails,
    })
}
