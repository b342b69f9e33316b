//! What holds of all connections, however bytes are brought. Each function's clause is the law; none
//! does anything.
ghost use Rattle.connections.specs.Laws.{BringingGoesOn, ConnectionsBegin, HearingIsWhole};

use request_frames::{readings_are_whole, readings_begin};

/// Before anything was brought a connection stands for no bytes and no requests.
pub fn connections_begin()
    ensures { ConnectionsBegin }
{
    readings_begin();
}

/// What is brought comes behind what was brought before, and tells no request by itself.
pub fn bringing_goes_on()
    ensures { BringingGoesOn }
{}

/// Where all that was brought was heard, the requests told are those of the stream.
pub fn hearing_is_whole()
    ensures { HearingIsWhole }
{
    readings_are_whole();
}
