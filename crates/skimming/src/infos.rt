// The sum of what the infos of states say that were looked up ahead.
ghost use Rattle.std.specs.Prelude.{◌≡◌, ◌<◌};
ghost use Rattle.skimming.specs.Infos.{infos_in, InfosReady};

use crate::{APART, EIGHT};
use counters::State;
use tables::Tables;

// What the infos of the eight states say that stand from an index on.
pub fn eight(t: &Tables, ahead: &[u16], at: usize) -> u64
    requires { InfosReady t.now ahead.now at 8 }
    ensures { (result ≡ infos_in t.now ahead.now at 8) × (result < 2048) }
{
    let mut sum = 0;
    for i in 0..EIGHT {
        sum += u64::from(t.info(State::numbered(ahead[at + APART * i])));
    }
    sum
}
