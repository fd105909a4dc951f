//! Lists of names of rules, in which each stands once.
ghost use Rattle.std.specs.Prelude.{◌≡◌, ◌++◌, bytes_eq, fold, option_map, OnOk};
ghost use Rattle.std.specs.List.{list_any};
ghost use Rattle.pd_explain.specs.Inner.{names_of};
ghost use Rattle.pd_explain.specs.RuleNames.{as_list, entered, is_named, with_name};

use std::alloc::AllocError;

/// Adds a name, unless it is there.
///
/// # Errors
/// `AllocError` where a growth is refused.
pub fn put_name_unless_there(
    names: &mut Vec<&'static str>,
    name: &'static str,
) -> Result<(), AllocError>
    ensures { OnOk result (names_of names.new.items ≡ with_name (names_of names.old.items) name.now) }
{
    if is_named(names.as_slice(), name) {
        return Ok(());
    }
    names.push(name)?;
    Ok(())
}

/// Adds a name if there is one, unless it is there.
///
/// # Errors
/// `AllocError` where a growth is refused.
pub fn put_name_if_some(
    names: &mut Vec<&'static str>,
    name: Option<&'static str>,
) -> Result<(), AllocError>
    ensures { OnOk result (names_of names.new.items ≡ fold with_name (names_of names.old.items) (as_list (option_map (λ each. each.now) name.entry))) }
{
    match name {
        None => Ok(()),
        Some(name) => put_name_unless_there(names, name),
    }
}

/// Adds those of the phases of a sender that it has entered since it had others.
///
/// # Errors
/// `AllocError` where a growth is refused.
pub fn put_entered(
    names: &mut Vec<&'static str>,
    before: &[&'static str],
    after: &[&'static str],
) -> Result<(), AllocError>
    ensures { OnOk result (names_of names.new.items ≡ fold with_name (names_of names.old.items) (entered (names_of before.now) (names_of after.now))) }
{
    for name in after {
        if !is_named(before, name) {
            put_name_unless_there(names, name)?;
        }
    }
    Ok(())
}

/// Whether a name is among others.
fn is_named(names: &[&'static str], name: &str) -> bool
    ensures { result ≡ is_named (names_of names.now) name.now }
{
    is_among(names, name)
}

/// The same, of the names behind references.
fn is_among(names: &[&'static str], name: &str) -> bool
    ensures { result ≡ list_any (λ each. bytes_eq each.now name.now) names.now }
{
    names.iter().any(|each| each.as_bytes() == name.as_bytes())
}
