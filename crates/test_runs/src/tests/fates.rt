// Fates whose last items are replaced by departures at other times, and then put back.
ghost use Rattle.std.specs.Prelude.{◌≡◌, length};

use crate::tests::stats::list;
use mq_base::OutOfMemory;
use mq_core::{Fate, Fates};
use std::alloc::Global;
use std::test::Fail;

// Returns whether a visit departs at this time.
fn departs_at(fate: Fate, time: u64) -> bool {
    match fate {
        Fate::Departs(departure) => departure == time,
        Fate::Lost | Fate::Held => false,
    }
}

// Returns whether departures at 7 and 9 follow the first of two fates, and then one
// departure at 5.
fn come_back(alloc: Global, fates: Fates) -> Result<bool, OutOfMemory>
    requires { length fates ≡ 2 }
{
    let mut fates = fates;
    fates.replace_from(alloc, 1, &[7, 9])?;
    if fates.len() != 3 {
        return Ok(false);
    }
    let put = departs_at(fates.at(1), 7) && departs_at(fates.at(2), 9);
    fates.put_back(alloc, 1, &[5]);
    Ok(put && fates.len() == 2 && departs_at(fates.at(1), 5))
}

#[test]
fn last_fates_come_back(rt: HostRuntime) -> Result<(), Fail> {
    let departures = Fates::departures(list(rt.alloc(), &[3u64, 5])?);
    assert!(rt; come_back(rt.alloc(), departures)?);
    let each = Fates::each(list(rt.alloc(), &[Fate::Lost, Fate::Departs(5)])?);
    assert!(rt; come_back(rt.alloc(), each)?);
    Ok(())
}
