//! Where the lines of an item have come, and which line may follow there.

ghost use Rattle.std.specs.Prelude.{◌≡◌};
ghost use Rattle.balise_items.specs.Places.{after, begins_at};

use balise_fields::FieldLine;

/// Where the lines of an item have come.
#[derive(Clone, Copy, Debug, PartialEq, Eq)]
pub enum Place {
    /// The header of a telegram.
    Header,
    /// A packet of a telegram.
    Packet,
    /// The bits that end such a packet.
    Rest,
    /// Packet 255.
    End,
    /// The bits after it.
    Padding,
    /// A packet by itself.
    Alone,
    /// The bits that end it.
    AloneRest,
    /// A line, by its number, that may not stand there.
    Bad(u32),
}

/// The place to which the first line of an item leads.
pub(crate) fn begins_at(line: &FieldLine, number: u32) -> Place
    ensures { result ≡ begins_at line.now number }
{
    match line {
        FieldLine::Telegram(Some(_)) => Place::Header,
        FieldLine::Alone(Some(_)) => Place::Alone,
        _ => Place::Bad(number),
    }
}

/// The place to which the next line leads.
pub(crate) fn after(place: Place, line: &FieldLine, number: u32) -> Place
    ensures { result ≡ after place line.now number }
{
    match place {
        Place::Header => match line {
            FieldLine::Field(_, _) => Place::Header,
            FieldLine::Packet => Place::Packet,
            FieldLine::End => Place::End,
            _ => Place::Bad(number),
        },
        Place::Packet => match line {
            FieldLine::Field(_, _) | FieldLine::Packet => Place::Packet,
            FieldLine::Rest(_) => Place::Rest,
            FieldLine::End => Place::End,
            _ => Place::Bad(number),
        },
        Place::Rest => match line {
            FieldLine::Packet => Place::Packet,
            FieldLine::End => Place::End,
            _ => Place::Bad(number),
        },
        Place::End => match line {
            FieldLine::Padding(_) => Place::Padding,
            _ => Place::Bad(number),
        },
        Place::Alone => match line {
            FieldLine::Field(_, _) => Place::Alone,
            FieldLine::Rest(_) => Place::AloneRest,
            _ => Place::Bad(number),
        },
        Place::Padding | Place::AloneRest => Place::Bad(number),
        Place::Bad(_) => place,
    }
}
