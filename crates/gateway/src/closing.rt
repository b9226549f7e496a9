// "Close makes a record idle from any state."
ghost use Rattle.std.specs.Prelude.{◌≡◌};
ghost use Rattle.gateway.specs.Common.{changed_in};
ghost use Rattle.gateway.specs.Close.{closing};

use crate::{Done, judge_host};
use refusal::Refused;
use state::{Records, Rights};

// Closes a host's connection.
#[tactic(auto, unfolding(crate::specs::Close::closing))]
pub fn close(rights: Rights, records: Records, host: u16) -> Result<Done<Records>, Refused>
    ensures { changed_in records result ≡ closing rights records host }
{
    let v = view::see(rights, records, host);
    judge_host(v, host)?;
    let after = state::with_record(records, usize::from(host) - 1, v.held.close());
    Ok(Done { blocks: 0, after })
}
