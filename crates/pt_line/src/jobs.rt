//! What `clap`'s matches come to: the job of a subcommand, by the values of its arguments.

ghost use Rattle.std.specs.Prelude.{◌≡◌, ◌↔◌, Some, IfOk, IsSome, IsTrue, codes, string_bytes};
ghost use Rattle.clap.specs.Walk.{texts as slice_texts};
ghost use Rattle.clap.specs.Words.{first_of, found_of, rows_of, subcommand_rows_of};
ghost use Rattle.pt_line.specs.inner.Lines.{GivesIf, HasNoJob, IfJob, IsSizeNamed, IsSizeOrLess, IsUnknown, MeansJob, text_in, texts_in};
ghost use Rattle.pt_line.specs.Lines.{HasTwoForms, IsAdoption, IsForm, IsGiven, IsInUse, IsKeeping, IsKeptUnless};
ghost use Rattle.pt_line.specs.Lines.{IsLockedBy, IsMedium, PlansWithData};

use crate::line::{
    Adoption, Form, InUse, Job, Line, LineError, LockedBy, Medium, PrimaryCopy, SectorSize,
};
use crate::texts::Texts;
use clap::ArgMatches;
use std::alloc::{AllocError, Global};

fn text_of(alloc: Global, matches: &ArgMatches<'_>, id: &str) -> Result<String, AllocError>
    ensures { IfOk result (λ text. string_bytes text ≡ text_in (rows_of (found_of matches.now)) id.now) }
{
    match matches.get_str(id) {
        Some(text) => String::from_str(alloc, text),
        None => Ok(String::new(alloc)),
    }
}

fn copied(alloc: Global, texts: &[&str]) -> Result<Texts, AllocError>
    ensures { IfOk result (λ list. list ≡ slice_texts texts.now) }
{
    let mut list = Texts::new(alloc);
    for text in texts {
        list.push(text)?;
    }
    Ok(list)
}

fn texts_of(alloc: Global, matches: &ArgMatches<'_>, id: &str) -> Result<Texts, AllocError>
    ensures { IfOk result (λ list. list ≡ texts_in (rows_of (found_of matches.now)) id.now) }
{
    match matches.get_strs(id) {
        Some(texts) => copied(alloc, texts),
        None => Ok(Texts::new(alloc)),
    }
}

/// The value of an option, where it is given.
fn value_of(alloc: Global, matches: &ArgMatches<'_>, id: &str) -> Result<Option<String>, AllocError>
    ensures { IfOk result (GivesIf (rows_of (found_of matches.now)) id.now) }
{
    match matches.get_str(id) {
        Some(text) => Ok(Some(String::from_str(alloc, text)?)),
        None => Ok(None),
    }
}

fn size_named(text: &str) -> SectorSize
    ensures { IsSizeNamed text.now result }
{
    match text {
        "4096" => SectorSize::Bytes4096,
        _ => SectorSize::Bytes512,
    }
}

fn size_of(matches: &ArgMatches<'_>) -> Option<SectorSize>
    ensures { IsSizeOrLess (rows_of (found_of matches.now)) result }
{
    match matches.get_str("sector-size") {
        Some(text) => Some(size_named(text)),
        None => None,
    }
}

fn is_given(matches: &ArgMatches<'_>, id: &str) -> bool
    ensures { IsTrue result ↔ IsGiven (rows_of (found_of matches.now)) id.now }
{
    let Some(flag) = matches.get_str(id) else {
        return false;
    };
    flag == "true"
}

/// Whether an option is given.
fn has_value(matches: &ArgMatches<'_>, id: &str) -> bool
    ensures { IsTrue result ↔ IsSome (first_of id.now (rows_of (found_of matches.now))) }
{
    matches.get_str(id).is_some()
}

fn locked_by(matches: &ArgMatches<'_>) -> LockedBy
    ensures { IsLockedBy (rows_of (found_of matches.now)) result }
{
    if is_given(matches, "no-lock") {
        LockedBy::Caller
    } else {
        LockedBy::Ptab
    }
}

fn medium_of(matches: &ArgMatches<'_>, flag: &str) -> Medium
    ensures { IsMedium (rows_of (found_of matches.now)) flag.now result }
{
    if is_given(matches, flag) {
        Medium::Device
    } else {
        Medium::File
    }
}

fn in_use_of(matches: &ArgMatches<'_>) -> InUse
    ensures { IsInUse (rows_of (found_of matches.now)) result }
{
    if is_given(matches, "in-use") {
        InUse::Allowed
    } else {
        InUse::Refused
    }
}

fn form_of(matches: &ArgMatches<'_>) -> Form
    ensures { IsForm (rows_of (found_of matches.now)) result }
{
    if is_given(matches, "json") {
        Form::Json
    } else if is_given(matches, "human") {
        Form::Human
    } else {
        Form::Lines
    }
}

fn has_two_forms(matches: &ArgMatches<'_>) -> bool
    ensures { IsTrue result ↔ HasTwoForms (rows_of (found_of matches.now)) }
{
    is_given(matches, "json") && is_given(matches, "human")
}

fn adoption_of(matches: &ArgMatches<'_>) -> Adoption
    ensures { IsAdoption (rows_of (found_of matches.now)) result }
{
    if is_given(matches, "plan") {
        Adoption::Planned
    } else {
        Adoption::Written
    }
}

fn plans_with_data(matches: &ArgMatches<'_>) -> bool
    ensures { IsTrue result ↔ PlansWithData (rows_of (found_of matches.now)) }
{
    is_given(matches, "plan") && has_value(matches, "data")
}

fn keeping_of(matches: &ArgMatches<'_>) -> PrimaryCopy
    ensures { IsKeeping (rows_of (found_of matches.now)) result }
{
    if is_given(matches, "keep-primary") {
        PrimaryCopy::Kept
    } else {
        PrimaryCopy::ByTable
    }
}

fn kept_unless(matches: &ArgMatches<'_>) -> PrimaryCopy
    ensures { IsKeptUnless (rows_of (found_of matches.now)) result }
{
    if is_given(matches, "by-table") {
        PrimaryCopy::ByTable
    } else {
        PrimaryCopy::Kept
    }
}

/// The fresh GUIDs of an edit, and its words.
fn edit_of(alloc: Global, matches: &ArgMatches<'_>) -> Result<(Option<String>, Texts), AllocError>
    ensures { IfOk result (λ p. GivesIf (rows_of (found_of matches.now)) (codes "fresh") p.0
        × (p.1 ≡ texts_in (rows_of (found_of matches.now)) (codes "WORD"))) }
{
    let fresh = value_of(alloc, matches, "fresh")?;
    Ok((fresh, texts_of(alloc, matches, "WORD")?))
}

fn show_job(alloc: Global, inner: &ArgMatches<'_>, image: String) -> Result<Job, LineError>
    requires { string_bytes image ≡ text_in (rows_of (found_of inner.now)) (codes "IMAGE") }
    ensures { IfJob (codes "show") (rows_of (found_of inner.now)) result }
{
    Ok(Job::Show {
        image,
        after: value_of(alloc, inner, "after")?,
        copy: value_of(alloc, inner, "copy")?,
        form: form_of(inner),
    })
}

fn place_job(alloc: Global, inner: &ArgMatches<'_>, image: String) -> Result<Job, LineError>
    requires { string_bytes image ≡ text_in (rows_of (found_of inner.now)) (codes "IMAGE") }
    ensures { IfJob (codes "locate") (rows_of (found_of inner.now)) result }
{
    Ok(Job::Locate {
        image,
        path: text_of(alloc, inner, "PATH")?,
        place: text_of(alloc, inner, "K")?,
    })
}

fn edit_job(alloc: Global, inner: &ArgMatches<'_>, image: String) -> Result<Job, LineError>
    requires { string_bytes image ≡ text_in (rows_of (found_of inner.now)) (codes "IMAGE") }
    ensures { IfJob (codes "edit") (rows_of (found_of inner.now)) result }
{
    let (fresh, words) = edit_of(alloc, inner)?;
    Ok(Job::Edit {
        image,
        fresh,
        words,
        primary: keeping_of(inner),
        locked_by: locked_by(inner),
    })
}

fn plan_job(alloc: Global, inner: &ArgMatches<'_>, image: String) -> Result<Job, LineError>
    requires { string_bytes image ≡ text_in (rows_of (found_of inner.now)) (codes "IMAGE") }
    ensures { IfJob (codes "plan") (rows_of (found_of inner.now)) result }
{
    let (fresh, words) = edit_of(alloc, inner)?;
    Ok(Job::Plan {
        image,
        fresh,
        words,
        primary: keeping_of(inner),
    })
}

fn adopt_job(alloc: Global, inner: &ArgMatches<'_>, image: String) -> Result<Job, LineError>
    requires { string_bytes image ≡ text_in (rows_of (found_of inner.now)) (codes "IMAGE") }
    ensures { IfJob (codes "adopt") (rows_of (found_of inner.now)) result }
{
    Ok(Job::Adopt {
        image,
        other: text_of(alloc, inner, "OTHER")?,
        other_medium: medium_of(inner, "other-device"),
        data: value_of(alloc, inner, "data")?,
        adoption: adoption_of(inner),
        primary: kept_unless(inner),
        locked_by: locked_by(inner),
    })
}

fn set_job(alloc: Global, inner: &ArgMatches<'_>, image: String) -> Result<Job, LineError>
    requires { string_bytes image ≡ text_in (rows_of (found_of inner.now)) (codes "IMAGE") }
    ensures { IfJob (codes "set") (rows_of (found_of inner.now)) result }
{
    Ok(Job::Set {
        image,
        table: text_of(alloc, inner, "TABLE")?,
        fresh: value_of(alloc, inner, "fresh")?,
        adoption: adoption_of(inner),
        primary: kept_unless(inner),
        locked_by: locked_by(inner),
    })
}

fn job_of(alloc: Global, name: &str, inner: &ArgMatches<'_>) -> Result<Job, LineError>
    requires { ¬ IsUnknown name.now }
    ensures { IfJob name.now (rows_of (found_of inner.now)) result }
{
    let image = text_of(alloc, inner, "IMAGE")?;
    match name {
        "show" => show_job(alloc, inner, image),
        "verify" => Ok(Job::Verify { image }),
        "locate" => place_job(alloc, inner, image),
        "free" => Ok(Job::Free {
            image,
            form: form_of(inner),
        }),
        "types" => Ok(Job::Types),
        "edit" => edit_job(alloc, inner, image),
        "plan" => plan_job(alloc, inner, image),
        "check" => Ok(Job::Check {
            image,
            file: text_of(alloc, inner, "PLANFILE")?,
        }),
        "apply" => Ok(Job::Apply {
            image,
            file: text_of(alloc, inner, "PLANFILE")?,
            locked_by: locked_by(inner),
        }),
        "repair" => Ok(Job::Repair {
            image,
            primary: keeping_of(inner),
            locked_by: locked_by(inner),
        }),
        "adopt" => adopt_job(alloc, inner, image),
        "set" => set_job(alloc, inner, image),
        _ => unreachable!(),
    }
}

/// The line of the subcommand with this name.
fn line_in(alloc: Global, name: &str, inner: &ArgMatches<'_>) -> Result<Line, LineError>
    requires { ¬ IsUnknown name.now }
    ensures { MeansJob (Some (name.now, rows_of (found_of inner.now))) result }
{
    let medium = medium_of(inner, "device");
    let in_use = in_use_of(inner);
    if let (InUse::Allowed, Medium::File) = (in_use, medium) {
        return Err(LineError::InUseAlone);
    }
    if has_two_forms(inner) {
        return Err(LineError::TwoForms);
    }
    if plans_with_data(inner) {
        return Err(LineError::PlanWithData);
    }
    Ok(Line {
        job: job_of(alloc, name, inner)?,
        size: size_of(inner),
        medium,
        in_use,
    })
}

pub(crate) fn line_of(alloc: Global, matches: &ArgMatches<'_>) -> Result<Line, LineError>
    requires { ¬ HasNoJob (subcommand_rows_of matches.now) }
    ensures { MeansJob (subcommand_rows_of matches.now) result }
{
    match matches.subcommand() {
        Some((name, inner)) => line_in(alloc, name, inner),
        None => unreachable!(),
    }
}
