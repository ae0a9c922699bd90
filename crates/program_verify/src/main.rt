//! The program: `verify` judges a bundle over an artifact from a pinned TUF root. It is over a file or told digests, with
//! trust from a repository, an archive or a trusted root that is handed in; where it is asked for the statement, the
//! payload that was signed is put in a file; of a list of bundles it tells the first that is accepted. `gate` judges each artifact of a folder by its own bundle. `archive` writes
//! the chain of documents to one file, and `check` judges such a file; `download` puts the files of targets in their
//! places; `audit` judges whether a log grew; `generate` verifies a workload and counts. The report, the lines or the
//! refusal go to standard output; the exit status says which.
#![tactic(auto)]

use command_archive::{CheckLayout, archive_layout, check_layout, run_archive, run_check};
use command_audit::{AuditLayout, audit_layout, run_audit};
use command_bundles::{bundles_layout, run_bundles};
use command_download::{DownloadLayout, FileShelf, download_layout, run_download};
use command_files::{CommandLine, Layout, Status, StdoutSink, exit_code, or_none, read_layout};
use command_gate::{gate_layout, run_gate};
use command_generate::{is_generate, run_generate};
use command_outputs::{OutputsLayout, outputs_layout, run_outputs};
use command_verify::run;
use command_ways::{FolderLayout, WayLayout, gate_way_layout, run_gate_way, run_way, way_layout};
use foundation::NoMemory;
use program_objects::{
    AuditObjects, DownloadObjects, GateObjects, Objects, audit_objects_at, clock_of,
    download_objects_at, gate_objects_at, objects_at, words_of,
};
use sigstore_keys::FileSource;
use sigstore_types_parts::Text;
use std::process::ExitCode;
use std::rt::Runtime;

// Runs `archive` over the real objects that its words name.
fn archived<X: Runtime + AllocGlobal>(rt: &X, line: &CommandLine<'_>, layout: Layout) -> Status {
    let Objects {
        mut inputs,
        mut repository,
        mut store,
        mut out,
        ..
    } = objects_at(rt, Some(layout));
    run_archive(
        rt.alloc(),
        line,
        &mut inputs,
        &mut repository,
        &mut store,
        &mut out,
    )
}

// Runs `check` over the real objects that its words name.
fn checked<X: Runtime + AllocGlobal>(
    rt: &X,
    line: &CommandLine<'_>,
    layout: CheckLayout,
) -> Status {
    let CheckLayout {
        places,
        trusted_root,
        ..
    } = layout;
    drop(trusted_root);
    let Objects {
        mut inputs,
        mut artifact,
        mut out,
        ..
    } = objects_at(rt, Some(places));
    run_check(
        rt.alloc(),
        line,
        &mut inputs,
        &mut artifact,
        &mut FileShelf::new(rt),
        &mut out,
    )
}

// Runs `audit` over the real objects that its words name.
fn audited<X: Runtime + AllocGlobal>(rt: &X, words: &[Text], layout: AuditLayout) -> Status {
    let AuditObjects {
        mut inputs,
        mut checkpoints,
        mut tiles,
        mut out,
    } = audit_objects_at(rt, layout);
    run_audit(
        rt.alloc(),
        words,
        &mut inputs,
        &mut checkpoints,
        &mut tiles,
        &mut out,
    )
}

// Runs `download` over the real objects that its words name.
fn downloaded<X: Runtime + AllocGlobal>(
    rt: &X,
    line: &CommandLine<'_>,
    layout: DownloadLayout,
) -> Status {
    let DownloadLayout { places, downloads } = layout;
    drop(downloads);
    let DownloadObjects {
        mut inputs,
        mut repository,
        mut store,
        mut shelf,
        mut out,
    } = download_objects_at(rt, places);
    run_download(
        rt.alloc(),
        line,
        &mut inputs,
        &mut repository,
        &mut store,
        &mut shelf,
        &mut out,
    )
}

// Runs `gate` over the real objects that its words name.
fn gated<X: Runtime + AllocGlobal>(rt: &X, line: &CommandLine<'_>, layout: Layout) -> Status {
    let GateObjects {
        mut inputs,
        mut repository,
        mut store,
        mut folder,
        mut out,
    } = gate_objects_at(rt, layout);
    run_gate(
        rt.alloc(),
        line,
        &mut inputs,
        &mut repository,
        &mut store,
        &mut folder,
        &mut out,
    )
}

// Runs `gate` in another way over the real objects that its words name.
fn gated_by_way<X: Runtime + AllocGlobal>(
    rt: &X,
    line: &CommandLine<'_>,
    layout: FolderLayout,
) -> Status {
    let FolderLayout {
        archive,
        places,
        ..
    } = layout;
    let mut archive = FileSource::new(rt, archive);
    let GateObjects {
        mut inputs,
        mut repository,
        mut store,
        mut folder,
        mut out,
    } = gate_objects_at(rt, places);
    run_gate_way(
        rt.alloc(),
        line,
        &mut inputs,
        &mut repository,
        &mut store,
        &mut archive,
        &mut folder,
        &mut out,
    )
}

// Runs `verify` over the real objects that its words name.
fn verified<X: Runtime + AllocGlobal>(
    rt: &X,
    line: &CommandLine<'_>,
    layout: Option<Layout>,
) -> Status {
    let Objects {
        mut inputs,
        mut repository,
        mut store,
        mut artifact,
        mut out,
    } = objects_at(rt, layout);
    run(
        rt.alloc(),
        line,
        &mut inputs,
        &mut repository,
        &mut store,
        &mut artifact,
        &mut out,
    )
}

// Runs `verify` in another way over the real objects that its words name.
fn verified_by_way<X: Runtime + AllocGlobal>(
    rt: &X,
    line: &CommandLine<'_>,
    layout: WayLayout,
) -> Status {
    let WayLayout {
        way,
        archive,
        places,
    } = layout;
    drop(way);
    let mut archive = FileSource::new(rt, archive);
    let Objects {
        mut inputs,
        mut repository,
        mut store,
        mut artifact,
        mut out,
    } = objects_at(rt, Some(places));
    run_way(
        rt.alloc(),
        line,
        &mut inputs,
        &mut repository,
        &mut store,
        &mut archive,
        &mut artifact,
        &mut out,
    )
}

// Runs `verify` in any way over the real objects that its words name, for more than the report.
fn verified_for_outputs<X: Runtime + AllocGlobal>(
    rt: &X,
    line: &CommandLine<'_>,
    layout: OutputsLayout,
) -> Status {
    let OutputsLayout {
        verification,
        outputs,
    } = layout;
    drop(outputs);
    let WayLayout {
        way,
        archive,
        places,
    } = verification;
    drop(way);
    let (mut archive, mut shelf) = (FileSource::new(rt, archive), FileShelf::new(rt));
    let Objects {
        mut inputs,
        mut repository,
        mut store,
        mut artifact,
        mut out,
    } = objects_at(rt, Some(places));
    run_outputs(
        rt.alloc(),
        line,
        &mut inputs,
        &mut repository,
        &mut store,
        &mut archive,
        &mut artifact,
        &mut shelf,
        &mut out,
    )
}

// Runs `verify` in any way over the real objects that its words name, of which one is a list of bundles.
fn verified_by_list<X: Runtime + AllocGlobal>(
    rt: &X,
    line: &CommandLine<'_>,
    layout: OutputsLayout,
) -> Status {
    let OutputsLayout {
        verification,
        outputs,
    } = layout;
    drop(outputs);
    let WayLayout {
        way,
        archive,
        places,
    } = verification;
    drop(way);
    let (mut archive, mut shelf) = (FileSource::new(rt, archive), FileShelf::new(rt));
    let Objects {
        mut inputs,
        mut repository,
        mut store,
        mut artifact,
        mut out,
    } = objects_at(rt, Some(places));
    run_bundles(
        rt.alloc(),
        line,
        &mut inputs,
        &mut repository,
        &mut store,
        &mut archive,
        &mut artifact,
        &mut shelf,
        &mut out,
    )
}

// Runs `generate`, which goes to standard output alone.
fn generated<X: Runtime + AllocGlobal>(rt: &X, words: &[Text]) -> Status {
    run_generate(rt.alloc(), words, &mut StdoutSink::new(rt))
}

// Judges bundles, of one artifact or a folder of them, over the real objects that the words name.
fn judged<X: Runtime + AllocGlobal>(rt: &X, line: &CommandLine<'_>) -> Result<Status, NoMemory> {
    if let Some(layout) = or_none(gate_layout(rt.alloc(), line.words))? {
        return Ok(gated(rt, line, layout));
    }
    if let Some(layout) = or_none(gate_way_layout(rt.alloc(), line.words))? {
        return Ok(gated_by_way(rt, line, layout));
    }
    if let Some(layout) = or_none(read_layout(rt.alloc(), line.words))? {
        return Ok(verified(rt, line, Some(layout)));
    }
    if let Some(layout) = or_none(way_layout(rt.alloc(), line.words))? {
        return Ok(verified_by_way(rt, line, layout));
    }
    if let Some(layout) = or_none(outputs_layout(rt.alloc(), line.words))? {
        return Ok(verified_for_outputs(rt, line, layout));
    }
    if let Some(layout) = or_none(bundles_layout(rt.alloc(), line.words))? {
        return Ok(verified_by_list(rt, line, layout));
    }
    Ok(verified(rt, line, None))
}

// Runs the program over the real objects that its words name.
fn status_of<X: Runtime + AllocGlobal>(rt: &X) -> Result<Status, NoMemory> {
    let words = words_of(rt)?;
    if is_generate(&words) {
        return Ok(generated(rt, &words));
    }
    if let Some(layout) = or_none(audit_layout(rt.alloc(), &words))? {
        return Ok(audited(rt, &words, layout));
    }
    let line = CommandLine {
        words: &words,
        clock: clock_of(rt),
    };
    if let Some(layout) = or_none(archive_layout(rt.alloc(), &words))? {
        return Ok(archived(rt, &line, layout));
    }
    if let Some(layout) = or_none(check_layout(rt.alloc(), &words))? {
        return Ok(checked(rt, &line, layout));
    }
    if let Some(layout) = or_none(download_layout(rt.alloc(), &words))? {
        return Ok(downloaded(rt, &line, layout));
    }
    judged(rt, &line)
}

fn main(rt: HostRuntime) -> ExitCode {
    ExitCode::from(exit_code(status_of(&rt)))
}
