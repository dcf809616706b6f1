//! Where call detail records go.

ghost use Rattle.std.specs.Prelude.{IfNone, IfSome, Option, option_map};
ghost use Rattle.clap.specs.Words.{found_of, rows_of};
ghost use Rattle.xp_arguments.specs.Commands.{AreDetails, HasDetails};

use crate::names::{CDR, CDR_DIR};
use clap::ArgMatches;

/// Where call detail records go.
#[derive(Clone, Copy)]
pub enum DetailsOrder<'a> {
    /// To the file of this name.
    File(&'a str),
    /// To files of this directory, one for each day.
    Directory(&'a str),
}

/// Where the arguments ask call detail records to go, if they do. `None` where they name a file and a directory.
pub(crate) fn details_of<'a>(matches: &ArgMatches<'a>) -> Option<Option<DetailsOrder<'a>>>
    ensures found { IfSome result (λ details. HasDetails (rows_of (found_of matches.now)) details) }
    ensures none { IfNone result ((details : Option DetailsOrder) → HasDetails (rows_of (found_of matches.now)) details → ⊥) }
{
    let file = matches.get_str(CDR);
    let directory = matches.get_str(CDR_DIR);
    details_into(file, directory)
}

/// A file or a directory of call detail records. `None` where there are both.
fn details_into<'a>(
    file: Option<&'a str>,
    directory: Option<&'a str>,
) -> Option<Option<DetailsOrder<'a>>>
    ensures found { IfSome result (AreDetails (option_map (λ name. name.now) file.entry) (option_map (λ name. name.now) directory.entry)) }
    ensures none { IfNone result ((details : Option DetailsOrder) → AreDetails (option_map (λ name. name.now) file.entry) (option_map (λ name. name.now) directory.entry) details → ⊥) }
{
    match (file, directory) {
        (None, None) => Some(None),
        (Some(file), None) => Some(Some(DetailsOrder::File(file))),
        (None, Some(directory)) => Some(Some(DetailsOrder::Directory(directory))),
        (Some(_), Some(_)) => None,
    }
}
