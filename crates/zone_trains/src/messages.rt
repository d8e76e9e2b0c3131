//! What a zone reads in a message before it acts on it: its time, and whether it is one for the zone.
ghost use Rattle.std.specs.Prelude.{◌≡◌, true};
ghost use Rattle.definitions.specs.Control.{message_time};
ghost use Rattle.plain_state.specs.Zone.{is_own, concerns, fresh_number, fresh_mark, fresh_message};
ghost use Rattle.zone_trains.specs.Trains.{entry_declared};

use line_map::Line;
use msg_codec::{Msg, Order};
use way_path::on_steps::zone_of;

/// Whether an order is on no segment of another zone.
fn is_own(line: &Line, zone: u8, order: Order) -> bool
    ensures { result ≡ is_own line.now zone order }
{
    match order {
        Order::Close(seg) | Order::Open(seg) => zone_of(line, seg) == zone,
        _ => true,
    }
}

/// The time in a message, 0 in one that has none.
pub fn message_time(message: &Msg) -> u64
    ensures { result ≡ message_time message.now }
{
    match message {
        Msg::Report { time, .. }
        | Msg::Reading { time, .. }
        | Msg::Time { time, .. }
        | Msg::EntryAsk { time, .. }
        | Msg::Ask { time, .. }
        | Msg::Answer { time, .. }
        | Msg::Gone { time, .. }
        | Msg::Echo { time, .. }
        | Msg::Order { time, .. } => *time,
        Msg::Hand(hand) => hand.time,
        _ => 0,
    }
}

/// Whether a message is no request for entry elsewhere than inward from a portal of the zone, and no order on a segment of
/// another zone.
pub fn concerns(line: &Line, zone: u8, message: &Msg) -> bool
    ensures here { result ≡ concerns line.now zone message.now }
    ensures declared { result ≡ true → entry_declared line.now message.now ≡ true }
{
    match message {
        Msg::EntryAsk { step, .. } => line.begins_at_portal(*step)
            && line.zone_of(step.seg).0 == zone,
        Msg::Order { order, .. } => is_own(line, zone, *order),
        _ => true,
    }
}

pub(crate) fn fresh_number(n: u32) -> bool
    ensures { result ≡ fresh_number n }
{
    n < 4_294_967_293
}

pub(crate) fn fresh_mark(n: u32) -> bool
    ensures { result ≡ fresh_mark n }
{
    n < 4_294_967_247
}

/// Whether no number and no mark of a message is too great.
pub fn fresh_message(message: &Msg) -> bool
    ensures { result ≡ fresh_message message.now }
{
    match message {
        Msg::Answer { number, .. } => fresh_number(*number),
        Msg::Auth { number, mark, .. } => fresh_number(*number) && fresh_mark(*mark),
        _ => true,
    }
}
