//! The text of names, and of names under a path.

ghost use Rattle.std.specs.Prelude.{◌≡◌, ◌<◌, ◌++◌, length, OnOk};
ghost use Rattle.alg_printer.specs.Names.{sort_name, hom_name, var_name, under, opening, closing, IsPathOf};

use crate::NoMemory;
use crate::text::Text;
use alg_terms::File;

/// The name of a sort.
pub(crate) fn put_sort_name(text: &mut Text, file: &File, number: u32) -> Result<(), NoMemory>
    requires { number < length file.now.sorts }
    ensures { OnOk result (text.new ≡ text.old ++ sort_name file.now number) }
{
    let declared = &file.sorts.items()[number as usize];
    text.put(declared.name.text().as_bytes())
}

/// The name of a variable.
pub(crate) fn put_variable(text: &mut Text, file: &File, number: u32) -> Result<(), NoMemory>
    requires { number < length file.now.vars }
    ensures { OnOk result (text.new ≡ text.old ++ var_name file.now number) }
{
    let declared = &file.vars.items()[number as usize];
    text.put(declared.name.text().as_bytes())
}

/// The name of a morphism.
pub(crate) fn put_morphism(text: &mut Text, file: &File, number: u32) -> Result<(), NoMemory>
    requires { number < length file.now.homs }
    ensures { OnOk result (text.new ≡ text.old ++ hom_name file.now number) }
{
    let declared = &file.homs.items()[number as usize];
    text.put(declared.name.text().as_bytes())
}

/// A name under a path of morphisms, the outermost first.
pub(crate) fn put_under(
    text: &mut Text,
    file: &File,
    path: &[u32],
    name: &[u8],
) -> Result<(), NoMemory>
    requires { IsPathOf file.now path.now }
    ensures { OnOk result (text.new ≡ text.old ++ under file.now path.now name.now) }
{
    put_opening(text, file, path)?;
    text.put(name)?;
    put_closing(text, path)
}

/// What stands before a name under a path.
fn put_opening(text: &mut Text, file: &File, path: &[u32]) -> Result<(), NoMemory>
    requires { IsPathOf file.now path.now }
    ensures { OnOk result (text.new ≡ text.old ++ opening file.now path.now) }
{
    for morphism in path {
        put_morphism(text, file, *morphism)?;
        text.put(b"(")?;
    }
    Ok(())
}

/// What stands after it.
fn put_closing(text: &mut Text, path: &[u32]) -> Result<(), NoMemory>
    ensures { OnOk result (text.new ≡ text.old ++ closing path.now) }
{
    for _ in path {
        text.put(b")")?;
    }
    Ok(())
}
