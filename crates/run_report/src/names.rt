// The words for what is wrong with a file or a setting.
ghost use Rattle.std.specs.Prelude.{◌≡◌, ◌≤◌, length};
ghost use Rattle.run_report.specs.Texts as texts;

use elf_image::ImageKind;
use hier_types::SettingName;
use trace_reader::TraceKind;

/// The name of what is wrong with a file.
pub(crate) fn kind_name(kind: ImageKind) -> &'static str
    ensures name { result.now ≡ texts.kind_name kind }
    ensures short { length result.now ≤ 12 }
{
    match kind {
        ImageKind::Short => "Short",
        ImageKind::Magic => "Magic",
        ImageKind::Class => "Class",
        ImageKind::Order => "Order",
        ImageKind::Version => "Version",
        ImageKind::Kind => "Kind",
        ImageKind::Machine => "Machine",
        ImageKind::Compressed => "Compressed",
        ImageKind::HeaderTable => "HeaderTable",
        ImageKind::Interpreter => "Interpreter",
        ImageKind::NoLoad => "NoLoad",
        ImageKind::ManyLoads => "ManyLoads",
        ImageKind::FileRange => "FileRange",
        ImageKind::SizeOrder => "SizeOrder",
        ImageKind::AddressRange => "AddressRange",
        ImageKind::Overlap => "Overlap",
        ImageKind::NoMemory => "NoMemory",
    }
}

/// The name of what is wrong with a row of a trace.
pub(crate) fn trace_kind_name(kind: TraceKind) -> &'static str
    ensures name { result.now ≡ texts.trace_kind_name kind }
    ensures short { length result.now ≤ 6 }
{
    match kind {
        TraceKind::Long => "Long",
        TraceKind::Word => "Word",
        TraceKind::Fields => "Fields",
        TraceKind::Number => "Number",
        TraceKind::Width => "Width",
        TraceKind::Value => "Value",
        TraceKind::Align => "Align",
        TraceKind::Range => "Range",
    }
}

/// The name of a setting, as its option has it.
pub(crate) fn setting_name(name: SettingName) -> &'static str
    ensures name { result.now ≡ texts.setting_name name }
    ensures short { length result.now ≤ 7 }
{
    match name {
        SettingName::Command => "command",
        SettingName::Base => "base",
        SettingName::Pages => "pages",
        SettingName::Frames => "frames",
        SettingName::Codec => "codec",
        SettingName::L1Sets => "l1-sets",
        SettingName::L1Ways => "l1-ways",
        SettingName::L2Sets => "l2-sets",
        SettingName::L2Ways => "l2-ways",
        SettingName::Meta => "meta",
        SettingName::Budget => "budget",
        SettingName::Beats => "beats",
        SettingName::Number => "number",
    }
}
