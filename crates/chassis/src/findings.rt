// The table's number of each verdict, with the target that it shows and the ports that it names.
ghost use Rattle.std.specs.Prelude.{◌≡◌};
ghost use Rattle.chassis.specs.Table.{by_target, finding_of};

use crate::{Finding, Named, Verdict};
use ids::Target;

// The number for an ID, or for an address.
fn by_target(t: Target, of_id: u8, of_address: u8) -> u8
    ensures { result ≡ by_target t of_id of_address }
{
    match t {
        Target::Id(_) => of_id,
        Target::Addr(_) => of_address,
    }
}

// What the check says where it found this.
pub fn finding_of(v: Verdict) -> Finding
    ensures { result ≡ finding_of v }
{
    match v {
        Verdict::Clear => Finding {
            number: 0,
            target: None,
            ports: Named::NoPort,
        },
        Verdict::Shared(t, p, q) => Finding {
            number: by_target(t, 11, 12),
            target: Some(t),
            ports: Named::Pair(p, q),
        },
        Verdict::Stray(t, p) => Finding {
            number: by_target(t, 13, 14),
            target: Some(t),
            ports: Named::Holder(p),
        },
        Verdict::Lost(p) => Finding {
            number: 15,
            target: None,
            ports: Named::Port(p),
        },
        Verdict::Taken(t, p) => Finding {
            number: 18,
            target: Some(t),
            ports: Named::Holder(p),
        },
    }
}
