// `push_reg_access` for callers that have numbers and slices only. Its route is the Rust's, without the number that a register route carries.
// Numbers past the route's record keep their values. Assumes nothing.
ghost use Rattle.std.specs.Prelude.{◌≡◌, [], ◌∷◌, ◌++◌, eqb, length, take, drop};
ghost use Rattle.access.specs.Access.{ACCESS_WIDTH};
ghost use Rattle.access.specs.Tables.{REGISTER_WIDTH};
ghost use Rattle.reg_access.specs.RegAccess.{built, pushed};
ghost use Rattle.classify.specs.Classify.{memw_route, route_number};
ghost use Rattle.exports.specs.FlatAccess.{record_over, FlatPushed};

use access::REGISTER_WIDTH;
use answer::{Answer, accept, refuse};
use classify::{AccessRoute, route_number};
use lists::slices::put;

// The route of the access of the register at `reg_addr`, or 10 for an `is_read` above 1, then 11; the record goes to `record`.
pub fn push_reg_access(
    reg_addr: u64,
    val0: u32,
    val1: u32,
    old0: u32,
    old1: u32,
    timestamp: u64,
    old_timestamp: u64,
    is_read: u64,
    record: &mut [u64; 29],
) -> Answer
    ensures { FlatPushed is_read
        (pushed (built reg_addr (val0 ∷ val1 ∷ []) (old0 ∷ old1 ∷ []) timestamp old_timestamp (eqb is_read 1)))
        «record».old result «record».new }
{
    if 1 < is_read {
        return refuse(10, 0);
    }
    let access = reg_access::push_reg_access(
        reg_addr,
        [val0, val1],
        [old0, old1],
        timestamp,
        old_timestamp,
        is_read == 1,
    );
    match access.answer {
        Ok(route) => {
            write_over(route, &access.written, record);
            accept(route_number(route))
        }
        Err(why) => why.into(),
    }
}

// Writes the record of a route over what is lent: the register table's has 8 numbers, and the others stay; else all 29.
#[tactic(auto, unfolding(crate::specs::FlatAccess::record_over))]
fn write_over(route: AccessRoute, written: &[u64; 29], lent: &mut [u64; 29])
    ensures { lent.new ≡ record_over (route_number (memw_route route)) written.now lent.old }
{
    match route {
        AccessRoute::Register { .. } => put_front(lent, written),
        AccessRoute::Aligned | AccessRoute::General => *lent = *written,
    }
}

fn put_front(after: &mut [u64], list: &[u64])
    requires { (length after.old ≡ ACCESS_WIDTH) × (length list.now ≡ ACCESS_WIDTH) }
    ensures { after.new ≡ take REGISTER_WIDTH list.now ++ drop REGISTER_WIDTH after.old }
{
    put(&mut after[0..REGISTER_WIDTH], &list[0..REGISTER_WIDTH]);
}
