//! What stands behind the status of a printed line, each part after one space.
ghost use Rattle.std.specs.Prelude.{◌≡◌, ◌++◌, OnOk, string_bytes, flat_map};
ghost use Rattle.sis_script.specs.Details.{word, quoted, hex_text, guid_text, limit_text};
ghost use Rattle.sis_script.specs.Details.{hindrance_text, fate_text, names_text, kind_text};
ghost use Rattle.sis_script.specs.Details.{report_text, unsettled_text, field_text, fault_text};
ghost use Rattle.sis_script.specs.Details.{details};

use sis_model::{
    Fate, Field, GrovelReport, Hindrance, Kind, LimitKind, Reply, RequestFault, UnsettledFile,
};
use sis_name::Name;
use std::alloc::{AllocError, Global};
use std::fmt::Write;
use uuid::Uuid;

fn add_name(text: &mut String, alloc: Global, name: &Name) -> Result<(), AllocError>
    ensures { OnOk result (string_bytes text.new ≡ string_bytes text.old ++ quoted name.now) }
{
    let inside = name.to_text(alloc)?;
    text.push_str(" \"")?;
    text.push_str(&inside)?;
    text.push('"')
}

fn add_each_name(text: &mut String, alloc: Global, names: &[Name]) -> Result<(), AllocError>
    ensures { OnOk result (string_bytes text.new
        ≡ string_bytes text.old ++ flat_map quoted names.now) }
{
    for name in names {
        add_name(text, alloc, name)?;
    }
    Ok(())
}

fn add_names(text: &mut String, alloc: Global, names: &[Name], more: bool) -> Result<(), AllocError>
    ensures { OnOk result (string_bytes text.new
        ≡ string_bytes text.old ++ names_text names.now more) }
{
    add_each_name(text, alloc, names)?;
    if more { text.push_str(" more") } else { Ok(()) }
}

fn add_bytes(text: &mut String, alloc: Global, bytes: &[u8]) -> Result<(), AllocError>
    ensures { OnOk result (string_bytes text.new
        ≡ string_bytes text.old ++ word (hex_text bytes.now)) }
{
    if bytes.is_empty() {
        return text.push_str(" -");
    }
    let digits = hex::encode(alloc, bytes)?;
    text.push(' ')?;
    text.push_str(&digits)
}

fn limit_word(kind: LimitKind) -> &'static str
    ensures { result.now ≡ limit_text kind }
{
    match kind {
        LimitKind::Opens => "opens",
        LimitKind::Files => "files",
        LimitKind::Ids => "ids",
        LimitKind::Indexes => "indexes",
        LimitKind::Versions => "versions",
    }
}

fn add_hindrance(text: &mut String, by: &Hindrance) -> Result<(), AllocError>
    ensures { OnOk result (string_bytes text.new
        ≡ string_bytes text.old ++ hindrance_text by.now) }
{
    match by {
        Hindrance::Limit { kind } => {
            let limit = limit_word(*kind);
            write!(text, " limit {limit}")
        }
        Hindrance::Full {
            needed,
            used,
            total,
        } => write!(text, " full {needed} {used} {total}"),
        Hindrance::TableFull { needed, cap } => write!(text, " table {needed} {cap}"),
        Hindrance::Disk => text.push_str(" disk"),
        Hindrance::Down { at } => write!(text, " down {at}"),
        Hindrance::Memory => text.push_str(" memory"),
    }
}

fn add_fate(text: &mut String, fate: &Fate) -> Result<(), AllocError>
    ensures { OnOk result (string_bytes text.new ≡ string_bytes text.old ++ fate_text fate.now) }
{
    match fate {
        Fate::Read => text.push_str(" read"),
        Fate::Writer => text.push_str(" writer"),
        Fate::Plain => text.push_str(" plain"),
        Fate::Link => text.push_str(" link"),
        Fate::Settled => text.push_str(" settled"),
        Fate::Unsettled { left, cause } => {
            write!(text, " unsettled {left}")?;
            add_hindrance(text, cause)
        }
    }
}

fn add_guid(text: &mut String, guid: [u8; 16]) -> Result<(), AllocError>
    ensures { OnOk result (string_bytes text.new
        ≡ string_bytes text.old ++ word (guid_text guid)) }
{
    let guid = Uuid::from_bytes_le(guid).hyphenated();
    write!(text, " {guid}")
}

fn add_kind(text: &mut String, kind: &Kind) -> Result<(), AllocError>
    ensures { OnOk result (string_bytes text.new ≡ string_bytes text.old ++ kind_text kind.now) }
{
    match kind {
        Kind::Plain => text.push_str(" plain"),
        Kind::Link { guid } => {
            text.push_str(" link")?;
            add_guid(text, *guid)
        }
        Kind::Dirty { guid, left } => {
            text.push_str(" dirty")?;
            add_guid(text, *guid)?;
            write!(text, " {left}")
        }
    }
}

fn add_report(text: &mut String, report: &GrovelReport) -> Result<(), AllocError>
    ensures { OnOk result (string_bytes text.new
        ≡ string_bytes text.old ++ report_text report.now) }
{
    let GrovelReport {
        seen,
        merged,
        skipped,
        refused,
        faulted,
    } = *report;
    write!(text, " {seen} {merged} {skipped} {refused} {faulted}")
}

#[tactic(auto, unfolding(crate::specs::Details::unsettled_text))]
fn add_file(text: &mut String, alloc: Global, file: &UnsettledFile) -> Result<(), AllocError>
    ensures { OnOk result (string_bytes text.new
        ≡ string_bytes text.old ++ unsettled_text file.now) }
{
    text.push_str(" unsettled")?;
    add_name(text, alloc, &file.name)?;
    let left = file.left;
    write!(text, " {left}")?;
    add_hindrance(text, &file.cause)
}

fn add_files(text: &mut String, alloc: Global, files: &[UnsettledFile]) -> Result<(), AllocError>
    ensures { OnOk result (string_bytes text.new
        ≡ string_bytes text.old ++ flat_map unsettled_text files.now) }
{
    for file in files {
        add_file(text, alloc, file)?;
    }
    Ok(())
}

fn field_word(field: Field) -> &'static str
    ensures { result.now ≡ field_text field }
{
    match field {
        Field::Source => "source",
        Field::Destination => "destination",
    }
}

fn add_fault(text: &mut String, fault: &RequestFault) -> Result<(), AllocError>
    ensures { OnOk result (string_bytes text.new
        ≡ string_bytes text.old ++ fault_text fault.now) }
{
    match fault {
        RequestFault::Short { have, need } => write!(text, " short {have} {need}"),
        RequestFault::OddLength { field } => {
            let field = field_word(*field);
            write!(text, " odd {field}")
        }
        RequestFault::LengthRange { field, value } => {
            let field = field_word(*field);
            write!(text, " range {field} {value}")
        }
        RequestFault::NoNull { field } => {
            let field = field_word(*field);
            write!(text, " nonull {field}")
        }
        RequestFault::EarlyNull { field, at } => {
            let field = field_word(*field);
            write!(text, " early {field} {at}")
        }
    }
}

pub(super) fn add_details(text: &mut String, alloc: Global, reply: &Reply) -> Result<(), AllocError>
    ensures { OnOk result (string_bytes text.new ≡ string_bytes text.old ++ details reply.now) }
{
    match reply {
        Reply::Opened { number } => write!(text, " {number}"),
        Reply::Read { bytes } => add_bytes(text, alloc, bytes.as_slice()),
        Reply::Closed { fate } => add_fate(text, fate),
        Reply::Sized { size } => write!(text, " {size}"),
        Reply::Names { names, more } => add_names(text, alloc, names.as_slice(), *more),
        Reply::Told { kind } => add_kind(text, kind),
        Reply::Space { used, total } => write!(text, " {used} {total}"),
        Reply::Groveled { report } => add_report(text, report),
        Reply::Ended { closed, unsettled } => {
            write!(text, " {closed}")?;
            add_files(text, alloc, unsettled.as_slice())
        }
        Reply::InvalidRequest { fault } => {
            text.push_str(" request")?;
            add_fault(text, fault)
        }
        Reply::Unsettled { left } => write!(text, " unsettled {left}"),
        Reply::Hindered { by } => add_hindrance(text, by),
        Reply::Done
        | Reply::InvalidOpen
        | Reply::InvalidParameter
        | Reply::InvalidDeviceRequest
        | Reply::AccessDenied
        | Reply::NotShared
        | Reply::NameInvalid
        | Reply::NotFound
        | Reply::Collision
        | Reply::InUse
        | Reply::NotSameDevice => Ok(()),
    }
}
