// Reading the command-line arguments.
ghost use Rattle.std.specs.Prelude.{IfOk};
ghost use Rattle.cs_command.specs.{Words.IsRead, Words.texts, inner.Matched.IsMatched};

use crate::command::command;
use crate::given::order_of;
use clap::ArgMatches;
use clap::error::ErrorKind;
use cs_arguments::Order;
use std::alloc::{AllocError, Global};

/// The reason why there is no order.
#[derive(Clone, Copy, Debug, PartialEq, Eq)]
pub enum Unread {
    /// The arguments have no reading.
    Usage,
    OutOfMemory,
}

/// Reads what the command-line arguments ask for. The result is Usage only if they have no reading; in that
/// case it is Usage or OutOfMemory.
pub fn read<'w>(alloc: Global, words: &'w [String]) -> Result<Order<'w>, Unread>
    ensures { IsRead (texts words.entry.now) result }
{
    match matched(alloc, words) {
        Ok(Some(matches)) => match order_of(&matches) {
            Some(order) => Ok(order),
            None => Err(Unread::Usage),
        },
        Ok(None) => Err(Unread::Usage),
        Err(_) => Err(Unread::OutOfMemory),
    }
}

// Returns clap's matches of the arguments, or None if clap refuses them.
fn matched<'w>(alloc: Global, words: &'w [String]) -> Result<Option<ArgMatches<'w>>, AllocError>
    ensures { IfOk result (λ o. IsMatched (texts words.entry.now) o) }
{
    match command(alloc)?.try_get_matches_from(words) {
        Ok(matches) => Ok(Some(matches)),
        Err(error) => match error.kind() {
            ErrorKind::OutOfMemory => Err(AllocError),
            _ => Ok(None),
        },
    }
}
