//! The command `ptab` as `clap` reads it: its pages and their arguments.

ghost use Rattle.std.specs.Prelude.{◌≡◌, ◌∷◌, [], Some, IfOk, IfSome, codes};
ghost use Rattle.clap.specs.Walk.{texts as slice_texts};
ghost use Rattle.clap.specs.Words.{new_app, new_rule};
ghost use Rattle.clap.specs.declared.builder.action.ArgAction.TheVariants.{Set, SetTrue};
ghost use Rattle.pt_line.specs.CommandLine as spec;
ghost use Rattle.pt_line.specs.inner.CommandLine as spec_inner;
ghost use Rattle.pt_line.specs.inner.Lines.{AddsPage, AddsRules, Begins, IsArg, IsCommand, ReadsAs, TakesArg};

use crate::help::{
    ADOPT, APPLY, CHECK, EDIT, FREE, LOCATE, PLAN, PTAB, REPAIR, SET, SHOW, TYPES, Texts, VERIFY,
    VERSION,
};
use clap::{Arg, ArgAction, Command};
use std::alloc::{AllocError, Global};

/// The sizes of a sector as they are written.
pub(crate) static SIZES: [&str; 2] = ["512", "4096"];

/// A subcommand.
#[derive(Clone, Copy)]
pub(crate) enum Subcommand {
    Show,
    Verify,
    Locate,
    Free,
    Types,
    Edit,
    Plan,
    Check,
    Apply,
    Repair,
    Adopt,
    Set,
}

/// The subcommand with this name.
fn subcommand_named(name: &str) -> Option<Subcommand>
    ensures { IfSome result (λ subcommand. name.now ≡ spec_inner.name_of subcommand) }
{
    match name {
        "show" => Some(Subcommand::Show),
        "verify" => Some(Subcommand::Verify),
        "locate" => Some(Subcommand::Locate),
        "free" => Some(Subcommand::Free),
        "types" => Some(Subcommand::Types),
        "edit" => Some(Subcommand::Edit),
        "plan" => Some(Subcommand::Plan),
        "check" => Some(Subcommand::Check),
        "apply" => Some(Subcommand::Apply),
        "repair" => Some(Subcommand::Repair),
        "adopt" => Some(Subcommand::Adopt),
        "set" => Some(Subcommand::Set),
        _ => None,
    }
}

fn needed<'a>(alloc: Global, id: &'a str, help: &'a str) -> Arg<'a>
    ensures { IsArg (spec.needed id.entry.now) result }
{
    Arg::new(alloc, id)
        .required(true)
        .action(ArgAction::Set)
        .help(help)
}

fn image<'a>(alloc: Global) -> Arg<'a>
    ensures { IsArg (spec.needed (codes "IMAGE")) result }
{
    needed(alloc, "IMAGE", "The disk image, a plain file")
}

fn plan_file<'a>(alloc: Global) -> Arg<'a>
    ensures { IsArg (spec.needed (codes "PLANFILE")) result }
{
    needed(
        alloc,
        "PLANFILE",
        "A plan as `ptab plan` prints it, a plain file of 8 MiB at most",
    )
}

/// An option that takes one value. Its name on the command line is its id.
fn option<'a>(alloc: Global, id: &'a str, value: &'a str, help: &'a str) -> Arg<'a>
    ensures { IsArg (record (new_rule id.entry.now) { long = Some id.entry.now; value_names = 1; action = Some Set }) result }
{
    Arg::new(alloc, id)
        .long(id)
        .value_name(value)
        .action(ArgAction::Set)
        .help(help)
}

fn sector_size<'a>(alloc: Global, sizes: &'a [&'a str]) -> Arg<'a>
    ensures { IsArg (spec.sector_size sizes.entry) result }
{
    let help = "512 (the default) or 4096; a device has its own";
    option(alloc, "sector-size", "BYTES", help)
        .value_parser(sizes)
        .hide_possible_values(true)
}

fn fresh<'a>(alloc: Global) -> Arg<'a>
    ensures { IsArg spec.fresh result }
{
    let help = "Fresh GUIDs, 32 hexadecimal digits each";
    option(alloc, "fresh", "HEX", help)
}

fn after<'a>(alloc: Global) -> Arg<'a>
    ensures { IsArg spec.after result }
{
    let help = "A plan, as if it were applied";
    option(alloc, "after", "PLANFILE", help)
}

fn copy<'a>(alloc: Global) -> Arg<'a>
    ensures { IsArg spec.copy result }
{
    let help = "One copy of a GPT alone: primary or backup";
    option(alloc, "copy", "COPY", help)
}

fn data_file<'a>(alloc: Global) -> Arg<'a>
    ensures { IsArg spec.data_file result }
{
    let help = "Sectors that come too, in lines of FIRST LAST";
    option(alloc, "data", "FILE", help)
}

/// A flag. Its name on the command line is its id.
fn flag<'a>(alloc: Global, id: &'a str, help: &'a str) -> Arg<'a>
    ensures { IsArg (record (new_rule id.entry.now) { long = Some id.entry.now; action = Some SetTrue }) result }
{
    Arg::new(alloc, id)
        .long(id)
        .action(ArgAction::SetTrue)
        .help(help)
}

fn json<'a>(alloc: Global) -> Arg<'a>
    ensures { IsArg spec.json result }
{
    flag(alloc, "json", "Print JSON in place of lines")
}

fn human<'a>(alloc: Global) -> Arg<'a>
    ensures { IsArg spec.human result }
{
    flag(alloc, "human", "Print a page for people in place of lines")
}

fn device<'a>(alloc: Global) -> Arg<'a>
    ensures { IsArg spec.device result }
{
    flag(alloc, "device", "IMAGE is a block device")
}

fn in_use<'a>(alloc: Global) -> Arg<'a>
    ensures { IsArg spec.in_use result }
{
    flag(alloc, "in-use", "Write a device also where it is in use")
}

fn other_device<'a>(alloc: Global) -> Arg<'a>
    ensures { IsArg spec.other_device result }
{
    flag(alloc, "other-device", "OTHER is a block device")
}

fn no_lock<'a>(alloc: Global) -> Arg<'a>
    ensures { IsArg spec.no_lock result }
{
    flag(
        alloc,
        "no-lock",
        "Take no lock: the caller holds the image's",
    )
}

fn other<'a>(alloc: Global) -> Arg<'a>
    ensures { IsArg (spec.needed (codes "OTHER")) result }
{
    needed(
        alloc,
        "OTHER",
        "The image whose table is taken, a plain file that is only read",
    )
}

fn table_file<'a>(alloc: Global) -> Arg<'a>
    ensures { IsArg (spec.needed (codes "TABLE")) result }
{
    needed(
        alloc,
        "TABLE",
        "A table as JSON, 8 MiB at most; -: standard input",
    )
}

fn plan_only<'a>(alloc: Global) -> Arg<'a>
    ensures { IsArg spec.plan_only result }
{
    flag(alloc, "plan", "Print the plan, and write nothing")
}

fn keep_primary<'a>(alloc: Global) -> Arg<'a>
    ensures { IsArg spec.keep_primary result }
{
    flag(
        alloc,
        "keep-primary",
        "Keep the primary copy of a GPT whole throughout",
    )
}

fn by_table<'a>(alloc: Global) -> Arg<'a>
    ensures { IsArg spec.by_table result }
{
    flag(
        alloc,
        "by-table",
        "Zero the primary header meanwhile, as `edit` does",
    )
}

fn words<'a>(alloc: Global) -> Arg<'a>
    ensures { IsArg spec.edit_words result }
{
    Arg::new(alloc, "WORD")
        .required(true)
        .num_args(1..)
        .action(ArgAction::Append)
        .help("Edit words, taken in order")
}

/// A command with its texts, and no argument yet.
fn page<'a>(alloc: Global, name: &'a str, texts: Texts) -> Command<'a>
    ensures { IsCommand (new_app name.entry.now) result }
{
    Command::new(alloc, name)
        .about(texts.about)
        .after_help(texts.short)
        .after_long_help(texts.long)
}

fn top<'a>(alloc: Global) -> Command<'a>
    ensures { IsCommand spec.top result }
{
    page(alloc, "ptab", PTAB)
        .version(VERSION)
        .subcommand_required(true)
}

/// A page with one more argument, where it was made.
// A page is large, and a call that isn't inlined copies it. `drop` is a call too: without it the fields would be dropped here, one by one.
#[inline(always)]
fn with_arg<'a>(
    page: Result<Command<'a>, AllocError>,
    arg: Arg<'a>,
) -> Result<Command<'a>, AllocError>
    ensures { TakesArg page.entry arg.entry result }
{
    match page {
        Ok(page) => page.arg(arg),
        Err(error) => {
            drop(arg);
            Err(error)
        }
    }
}

/// A page of a command that writes, where it was made.
fn writing<'a>(
    alloc: Global,
    page: Result<Command<'a>, AllocError>,
) -> Result<Command<'a>, AllocError>
    ensures { AddsRules page.entry spec.in_use spec.no_lock result }
{
    let page = with_arg(page, in_use(alloc));
    with_arg(page, no_lock(alloc))
}

/// A page with what is said of the image, where it was made.
fn on_disk<'a>(
    alloc: Global,
    sizes: &'a [&'a str],
    page: Result<Command<'a>, AllocError>,
) -> Result<Command<'a>, AllocError>
    ensures { AddsRules page.entry spec.device (spec.sector_size sizes.entry) result }
{
    let page = with_arg(page, device(alloc));
    with_arg(page, sector_size(alloc, sizes))
}

/// A page on an image, with no other argument yet.
fn image_page<'a>(alloc: Global, name: &'a str, texts: Texts) -> Result<Command<'a>, AllocError>
    ensures { IfOk result (IsCommand (spec_inner.page name.entry.now (spec.needed (codes "IMAGE") ∷ []))) }
{
    page(alloc, name, texts).arg(image(alloc))
}

fn on_image<'a>(
    alloc: Global,
    sizes: &'a [&'a str],
    name: &'a str,
    texts: Texts,
) -> Result<Command<'a>, AllocError>
    ensures { IfOk result (IsCommand (spec_inner.page name.entry.now (spec.image_rules sizes.entry))) }
{
    on_disk(alloc, sizes, image_page(alloc, name, texts))
}

fn on_free<'a>(
    alloc: Global,
    sizes: &'a [&'a str],
    name: &'a str,
    texts: Texts,
) -> Result<Command<'a>, AllocError>
    ensures { IfOk result (IsCommand (spec_inner.page name.entry.now (spec.free_rules sizes.entry))) }
{
    let page = image_page(alloc, name, texts);
    let page = with_arg(page, json(alloc));
    on_disk(alloc, sizes, page)
}

fn on_show<'a>(
    alloc: Global,
    sizes: &'a [&'a str],
    name: &'a str,
    texts: Texts,
) -> Result<Command<'a>, AllocError>
    ensures { IfOk result (IsCommand (spec_inner.page name.entry.now (spec.show_rules sizes.entry))) }
{
    let page = image_page(alloc, name, texts);
    let page = with_arg(page, after(alloc));
    let page = with_arg(page, copy(alloc));
    let page = with_arg(page, json(alloc));
    let page = with_arg(page, human(alloc));
    on_disk(alloc, sizes, page)
}

fn on_place<'a>(
    alloc: Global,
    sizes: &'a [&'a str],
    name: &'a str,
    texts: Texts,
) -> Result<Command<'a>, AllocError>
    ensures { IfOk result (IsCommand (spec_inner.page name.entry.now (spec.place_rules sizes.entry))) }
{
    let page = image_page(alloc, name, texts);
    let page = with_arg(page, needed(alloc, "PATH", "A partition, as 3, 5 or 2.a"));
    let page = with_arg(
        page,
        needed(alloc, "K", "A sector of the partition, from 0 on"),
    );
    on_disk(alloc, sizes, page)
}

fn on_words<'a>(
    alloc: Global,
    sizes: &'a [&'a str],
    name: &'a str,
    texts: Texts,
) -> Result<Command<'a>, AllocError>
    ensures { IfOk result (IsCommand (spec_inner.page name.entry.now (spec.word_rules sizes.entry))) }
{
    let page = image_page(alloc, name, texts);
    let page = with_arg(page, fresh(alloc));
    let page = with_arg(page, keep_primary(alloc));
    let page = on_disk(alloc, sizes, page);
    with_arg(page, words(alloc))
}

fn on_plan<'a>(
    alloc: Global,
    sizes: &'a [&'a str],
    name: &'a str,
    texts: Texts,
) -> Result<Command<'a>, AllocError>
    ensures { IfOk result (IsCommand (spec_inner.page name.entry.now (spec.plan_rules sizes.entry))) }
{
    let page = image_page(alloc, name, texts);
    let page = with_arg(page, plan_file(alloc));
    on_disk(alloc, sizes, page)
}

fn on_mending<'a>(
    alloc: Global,
    sizes: &'a [&'a str],
    name: &'a str,
    texts: Texts,
) -> Result<Command<'a>, AllocError>
    ensures { IfOk result (IsCommand (spec_inner.page name.entry.now (spec.mend_rules sizes.entry))) }
{
    let page = image_page(alloc, name, texts);
    let page = with_arg(page, keep_primary(alloc));
    on_disk(alloc, sizes, page)
}

fn on_other<'a>(
    alloc: Global,
    sizes: &'a [&'a str],
    name: &'a str,
    texts: Texts,
) -> Result<Command<'a>, AllocError>
    ensures { IfOk result (IsCommand (spec_inner.page name.entry.now (spec.other_rules sizes.entry))) }
{
    let page = image_page(alloc, name, texts);
    let page = with_arg(page, other(alloc));
    let page = with_arg(page, data_file(alloc));
    let page = with_arg(page, plan_only(alloc));
    let page = with_arg(page, by_table(alloc));
    let page = with_arg(page, other_device(alloc));
    on_disk(alloc, sizes, page)
}

fn on_table<'a>(
    alloc: Global,
    sizes: &'a [&'a str],
    name: &'a str,
    texts: Texts,
) -> Result<Command<'a>, AllocError>
    ensures { IfOk result (IsCommand (spec_inner.page name.entry.now (spec.table_rules sizes.entry))) }
{
    let page = image_page(alloc, name, texts);
    let page = with_arg(page, table_file(alloc));
    let page = with_arg(page, plan_only(alloc));
    let page = with_arg(page, fresh(alloc));
    let page = with_arg(page, by_table(alloc));
    on_disk(alloc, sizes, page)
}

/// The command with one more page, where both were made.
// So `command` has no early end, in which it would own a command.
fn with_page<'a>(
    ptab: Result<Command<'a>, AllocError>,
    page: Result<Command<'a>, AllocError>,
) -> Result<Command<'a>, AllocError>
    ensures { AddsPage ptab.entry page.entry result }
{
    match ptab {
        Ok(ptab) => match page {
            Ok(page) => ptab.subcommand(page),
            Err(error) => {
                drop(ptab);
                Err(error)
            }
        },
        Err(error) => {
            drop(page);
            Err(error)
        }
    }
}

/// The page of a subcommand.
fn page_of<'a>(
    alloc: Global,
    sizes: &'a [&'a str],
    subcommand: Subcommand,
) -> Result<Command<'a>, AllocError>
    ensures { IfOk result (IsCommand (spec_inner.page_of sizes.entry subcommand)) }
{
    match subcommand {
        Subcommand::Show => on_show(alloc, sizes, "show", SHOW),
        Subcommand::Verify => on_image(alloc, sizes, "verify", VERIFY),
        Subcommand::Locate => on_place(alloc, sizes, "locate", LOCATE),
        Subcommand::Free => on_free(alloc, sizes, "free", FREE),
        Subcommand::Types => Ok(page(alloc, "types", TYPES)),
        Subcommand::Edit => writing(alloc, on_words(alloc, sizes, "edit", EDIT)),
        Subcommand::Plan => on_words(alloc, sizes, "plan", PLAN),
        Subcommand::Check => on_plan(alloc, sizes, "check", CHECK),
        Subcommand::Apply => writing(alloc, on_plan(alloc, sizes, "apply", APPLY)),
        Subcommand::Repair => writing(alloc, on_mending(alloc, sizes, "repair", REPAIR)),
        Subcommand::Adopt => writing(alloc, on_other(alloc, sizes, "adopt", ADOPT)),
        Subcommand::Set => writing(alloc, on_table(alloc, sizes, "set", SET)),
    }
}

/// The command with all its pages.
fn whole<'a>(alloc: Global, sizes: &'a [&'a str]) -> Result<Command<'a>, AllocError>
    ensures { IfOk result (IsCommand (spec.ptab sizes.entry)) }
{
    let ptab = Ok(top(alloc));
    let ptab = with_page(ptab, page_of(alloc, sizes, Subcommand::Show));
    let ptab = with_page(ptab, page_of(alloc, sizes, Subcommand::Verify));
    let ptab = with_page(ptab, page_of(alloc, sizes, Subcommand::Locate));
    let ptab = with_page(ptab, page_of(alloc, sizes, Subcommand::Free));
    let ptab = with_page(ptab, page_of(alloc, sizes, Subcommand::Types));
    let ptab = with_page(ptab, page_of(alloc, sizes, Subcommand::Edit));
    let ptab = with_page(ptab, page_of(alloc, sizes, Subcommand::Plan));
    let ptab = with_page(ptab, page_of(alloc, sizes, Subcommand::Check));
    let ptab = with_page(ptab, page_of(alloc, sizes, Subcommand::Apply));
    let ptab = with_page(ptab, page_of(alloc, sizes, Subcommand::Repair));
    let ptab = with_page(ptab, page_of(alloc, sizes, Subcommand::Adopt));
    with_page(ptab, page_of(alloc, sizes, Subcommand::Set))
}

/// The command with the page of one subcommand.
fn alone<'a>(
    alloc: Global,
    sizes: &'a [&'a str],
    subcommand: Subcommand,
) -> Result<Command<'a>, AllocError>
    ensures { IfOk result (IsCommand (spec_inner.alone sizes.entry subcommand)) }
{
    with_page(Ok(top(alloc)), page_of(alloc, sizes, subcommand))
}

/// The subcommand that the first of the words names.
fn named_first(words: &[&str]) -> Option<Subcommand>
    ensures { IfSome result (λ subcommand. Begins (spec_inner.name_of subcommand) (slice_texts words.now)) }
{
    match words {
        [first, ..] => subcommand_named(first),
        [] => None,
    }
}

/// A command that reads these words as the whole one does. Where the first is a subcommand's name, no other page is made: each
/// costs more than the rest of the reading.
pub(crate) fn command<'a>(
    alloc: Global,
    sizes: &'a [&'a str],
    words: &[&str],
) -> Result<Command<'a>, AllocError>
    ensures { IfOk result (ReadsAs (spec.ptab sizes.entry) (codes "ptab" ∷ slice_texts words.now)) }
{
    match named_first(words) {
        Some(subcommand) => alone(alloc, sizes, subcommand),
        None => whole(alloc, sizes),
    }
}
