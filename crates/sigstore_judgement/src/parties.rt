// Whose word the verified times are.
ghost use Rattle.std.specs.Prelude.{◌≡◌, [], IfOk, OnOk, filter_map, option_copied};
ghost use Rattle.std.specs.List.{cons_option};
ghost use Rattle.sigstore_keys.specs.Distinct.{each_once};
ghost use Rattle.sigstore_judgement.specs.Parties.{telling_log, parties_with};

use crate::evidence::Parties;
use foundation::NoMemory;
use sigstore_entries::TransparencyLogEntry;
use sigstore_keys::DistinctIds;
use sigstore_log::told_time;
use std::alloc::Global;

// The id of the log whose promise tells an entry's time.
fn telling_log(entry: &TransparencyLogEntry) -> Option<&[u8]>
    ensures { option_copied result ≡ telling_log entry.now }
{
    match told_time(entry) {
        Some(_) => Some(entry.log_id.key_id.as_bytes()),
        None => None,
    }
}

fn add_log(
    alloc: Global,
    entry: &TransparencyLogEntry,
    sources: &mut DistinctIds,
) -> Result<(), NoMemory>
    ensures { OnOk result (sources.new.ids ≡ each_once sources.old.ids (cons_option (telling_log entry.now) [])) }
{
    match telling_log(entry) {
        Some(id) => sources.add(alloc, id),
        None => Ok(()),
    }
}

// The logs of entries behind those who are there.
#[tactic(auto, using(crate::proofs::Behind::one_or_none))]
fn add_logs(
    alloc: Global,
    entries: &[TransparencyLogEntry],
    sources: &mut DistinctIds,
) -> Result<(), NoMemory>
    ensures { OnOk result (sources.new.ids ≡ each_once sources.old.ids (filter_map telling_log entries.now)) }
{
    'entries: for entry in entries {
        add_log(alloc, entry, sources)?;
    }
    Ok(())
}

/// How many parties tell the verified times: the authorities of the tokens, and the logs, where what they promise counts.
pub(crate) fn count_parties(
    alloc: Global,
    authorities: DistinctIds,
    counts: bool,
    entries: &[TransparencyLogEntry],
) -> Result<Parties, NoMemory>
    ensures { IfOk result (λ parties. parties ≡ parties_with authorities.ids counts entries.now) }
{
    let mut sources = authorities;
    let authorities = sources.count();
    if counts {
        add_logs(alloc, entries, &mut sources)?;
    }
    Ok(Parties {
        authorities,
        sources: sources.count(),
    })
}
