//! What to look at again in a line, in words.

ghost use Rattle.std.specs.Prelude.{◌<◌};
ghost use Rattle.xp_subs.specs.Tables.{line_count};

use crate::default_callers::{has_no_default_caller, is_alone_behind, is_first_behind};
use crate::open_ports::is_open;
use std::alloc::AllocError;
use std::fmt::Write;
use xp_subs::{Access, LineNo, Subs};

/// What to look at again in the line with this number, and in its router, if it is the first line behind it.
pub(crate) fn push_line_warnings(
    text: &mut String,
    subs: &Subs,
    number: LineNo,
) -> Result<(), AllocError>
    requires { number < line_count subs.now }
{
    if is_open(subs, number) {
        let name = subs.name_of(number);
        writeln!(
            text,
            "warning: line {name}: it has no from, and host is no loopback address: whoever reaches its port calls at its station's cost"
        )?;
    }
    match subs.access_of(number) {
        Access::Router(router) if lacks_default_caller(subs, number, router.address()) => {
            let address = router.address();
            writeln!(
                text,
                "warning: router {address}: several stations have lines behind it, and none of them has default_caller"
            )
        }
        _ => Ok(()),
    }
}

/// Whether this is the first line behind the router, other stations have lines behind it too, and it has no default caller.
fn lacks_default_caller(subs: &Subs, line: LineNo, router: &str) -> bool
    requires { line < line_count subs.now }
{
    is_first_behind(subs, line, router)
        && !is_alone_behind(subs, subs.station_of(line), router)
        && has_no_default_caller(subs, router)
}
