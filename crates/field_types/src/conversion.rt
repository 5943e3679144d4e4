//! Whether a value fits a field, and what the field then holds.
ghost use Rattle.std.specs.Prelude.{◌≡◌, IfOk};
ghost use Rattle.std.specs.Option.{option_map};
ghost use Rattle.chan_values.specs.Tree.{trees};
ghost use Rattle.chan_values.specs.View.{tree_of};
ghost use Rattle.field_types.specs.Conversion.{converted, converted_item, all_converted, converted_items};

use crate::FieldType;
use chan_values::{ItemList, NoMemory, Portable, copy_portable, copy_text};
use std::alloc::Global;

fn integer(p: &Portable) -> Option<Portable>
    ensures { option_map tree_of result ≡ converted_item FieldType.Integer (tree_of p.now) }
{
    match p {
        Portable::Small(n) => Some(Portable::Small(*n)),
        Portable::Big(n) => {
            if *n >= i64::from(i32::MIN) && *n <= i64::from(i32::MAX) {
                Some(Portable::Small(*n as i32))
            } else {
                None
            }
        }
        _ => None,
    }
}

fn long_integer(p: &Portable) -> Option<Portable>
    ensures { option_map tree_of result ≡ converted_item FieldType.LongInteger (tree_of p.now) }
{
    match p {
        Portable::Small(n) => Some(Portable::Big(i64::from(*n))),
        Portable::Big(n) => Some(Portable::Big(*n)),
        _ => None,
    }
}

fn boolean(p: &Portable) -> Option<Portable>
    ensures { option_map tree_of result ≡ converted_item FieldType.Boolean (tree_of p.now) }
{
    match p {
        Portable::Truth(b) => Some(Portable::Truth(*b)),
        _ => None,
    }
}

fn string(alloc: Global, p: &Portable) -> Result<Option<Portable>, NoMemory>
    ensures { IfOk result (λ fitted. option_map tree_of fitted ≡ converted_item FieldType.String (tree_of p.now)) }
{
    match p {
        Portable::Words(t) => Ok(Some(Portable::Words(copy_text(alloc, t)?))),
        _ => Ok(None),
    }
}

fn node(p: &Portable) -> Option<Portable>
    ensures { option_map tree_of result ≡ converted_item FieldType.Node (tree_of p.now) }
{
    match p {
        Portable::Node(n) => Some(Portable::Node(*n)),
        Portable::Nothing => Some(Portable::Nothing),
        _ => None,
    }
}

/// What a field of a type without items holds, `None` where the value does not fit or the type has items.
fn convert_item(alloc: Global, t: FieldType, p: &Portable) -> Result<Option<Portable>, NoMemory>
    ensures { IfOk result (λ fitted. option_map tree_of fitted ≡ converted_item t (tree_of p.now)) }
{
    match t {
        FieldType::Integer => Ok(integer(p)),
        FieldType::LongInteger => Ok(long_integer(p)),
        FieldType::Boolean => Ok(boolean(p)),
        FieldType::String => string(alloc, p),
        FieldType::Node => Ok(node(p)),
        _ => Ok(None),
    }
}

/// The items, each as a field of the type would hold it, `None` where one does not fit.
fn convert_each(alloc: Global, t: FieldType, items: &ItemList) -> Result<Option<ItemList>, NoMemory>
    ensures { IfOk result (λ fitted. option_map trees fitted ≡ all_converted t (trees items.now)) }
{
    let mut fitted = ItemList::new(alloc);
    for item in items.as_slice() {
        match convert_item(alloc, t, item)? {
            Some(one) => fitted.push(one)?,
            None => return Ok(None),
        }
    }
    Ok(Some(fitted))
}

/// What a field holds whose type is an array of items of a type.
fn convert_items(alloc: Global, t: FieldType, p: &Portable) -> Result<Option<Portable>, NoMemory>
    ensures { IfOk result (λ fitted. option_map tree_of fitted ≡ converted_items t (tree_of p.now)) }
{
    match p {
        Portable::Nothing => Ok(Some(Portable::Nothing)),
        Portable::Items(items) => match convert_each(alloc, t, items)? {
            Some(fitted) => Ok(Some(Portable::Items(fitted))),
            None => Ok(None),
        },
        _ => Ok(None),
    }
}

/// What a field of the type holds after a write of the value, `None` exactly where the value does not fit.
///
/// Source: SceneGraph XML Reference, "interface", its table of field types.
pub fn convert(alloc: Global, t: FieldType, p: &Portable) -> Result<Option<Portable>, NoMemory>
    ensures { IfOk result (λ fitted. option_map tree_of fitted ≡ converted t (tree_of p.now)) }
{
    match (t, p) {
        (FieldType::AssocArray, Portable::Pairs(_) | Portable::Nothing)
        | (FieldType::Array, Portable::Items(_) | Portable::Nothing) => {
            Ok(Some(copy_portable(alloc, p)?))
        }
        (FieldType::StringArray, _) => convert_items(alloc, FieldType::String, p),
        (FieldType::IntArray, _) => convert_items(alloc, FieldType::Integer, p),
        (FieldType::BoolArray, _) => convert_items(alloc, FieldType::Boolean, p),
        (FieldType::NodeArray, _) => convert_items(alloc, FieldType::Node, p),
        _ => convert_item(alloc, t, p),
    }
}
