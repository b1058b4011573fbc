// Why a line of a script cannot be read, in words for its writer.
ghost use Rattle.std.specs.Prelude.{◌≡◌};
ghost use Rattle.longbed.specs.declared.unread.Unread.TheVariants as unread;

use crate::order::OrderFault;
use bed::fault::LineFault;
use script::fault::ReadFault;
use thiserror::Error;

#[derive(Clone, Copy, PartialEq, Eq, Debug, Error)]
pub enum Unread {
    #[error("{0}{hint}", hint = hint(.0))]
    Text(ReadFault),
    #[error("{0}")]
    Order(OrderFault),
}

// What helps the writer besides: the commands of this program, where the command is unknown.
fn hint(fault: &ReadFault) -> &'static str {
    match fault {
        ReadFault::Line(LineFault::UnknownCommand) => {
            " (bed, at, tripped, setup, block, event, tick or reading)"
        }
        _ => "",
    }
}

// By hand, since a derived `From` has no contract: it would be unknown which fault the `?` in `take_text` hands up.
impl From<ReadFault> for Unread {
    ghost from_gives = { λ fault r. r ≡ unread.Text fault };

    fn from(fault: ReadFault) -> Unread {
        Unread::Text(fault)
    }
}

impl From<OrderFault> for Unread {
    ghost from_gives = { λ fault r. r ≡ unread.Order fault };

    fn from(fault: OrderFault) -> Unread {
        Unread::Order(fault)
    }
}
