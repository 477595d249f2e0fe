//! The names and shapes of the program's builders.
//!
//! They are plain data. The functions that make trees are made of them, each by calling `built` with its shape.

ghost use Rattle.std.specs.Prelude.{◌≡◌, ◌++◌, ◌∷◌, [], map, string_bytes, IfOk, OnOk};
ghost use Rattle.pg_pred.specs.Names.{Name};
ghost use Rattle.pg_pred_program.specs.Builders.{builder_shapes};

use pg_tree::{Label, Shape};
use std::alloc::{AllocError, Global};

/// The name and the shape of each builder.
pub fn builder_shapes(alloc: Global) -> Result<Vec<(String, Shape)>, AllocError>
    ensures { IfOk result (λ v. map (λ entry. (string_bytes entry.0, entry.1)) v.items ≡ builder_shapes) }
{
    let mut shapes = Vec::new(alloc);
    push_shapes(alloc, &mut shapes)?;
    Ok(shapes)
}

/// Pushes the name and the shape of each builder.
fn push_shapes(alloc: Global, shapes: &mut Vec<(String, Shape)>) -> Result<(), AllocError>
    requires { shapes.old.items ≡ [] }
    ensures { OnOk result (map (λ entry. (string_bytes entry.0, entry.1)) shapes.new.items ≡ builder_shapes) }
{
    push_shape(alloc, shapes, "node", Shape::Symbol)?;
    push_node(alloc, shapes, "num")?;
    push_node(alloc, shapes, "name")?;
    push_node(alloc, shapes, "list")?;
    push_node(alloc, shapes, "call")?;
    push_shape(alloc, shapes, "flat", Shape::Flat(label(alloc, "list")?))?;
    push_shape(alloc, shapes, "join", Shape::Join)
}

/// Pushes the builder of nodes that have its name as their label.
fn push_node(alloc: Global, shapes: &mut Vec<(String, Shape)>, name: &str) -> Result<(), AllocError>
    ensures { OnOk result (map {B = Name × _} (λ entry. (string_bytes entry.0, entry.1)) shapes.new.items ≡
        map (λ entry. (string_bytes entry.0, entry.1)) shapes.old.items ++ (name.now, Shape.Node name.now) ∷ []) }
{
    push_shape(alloc, shapes, name, node(alloc, name)?)
}

fn push_shape(
    alloc: Global,
    shapes: &mut Vec<(String, Shape)>,
    name: &str,
    shape: Shape,
) -> Result<(), AllocError>
    ensures { OnOk result (map {B = Name × _} (λ entry. (string_bytes entry.0, entry.1)) shapes.new.items ≡
        map (λ entry. (string_bytes entry.0, entry.1)) shapes.old.items ++ (name.now, shape) ∷ []) }
{
    let name = String::from_str(alloc, name)?;
    shapes.push((name, shape))?;
    Ok(())
}

fn node(alloc: Global, text: &str) -> Result<Shape, AllocError>
    ensures { IfOk result (λ shape. shape ≡ Shape.Node text.now) }
{
    let label = label(alloc, text)?;
    Ok(Shape::Node(label))
}

fn label(alloc: Global, text: &str) -> Result<Label, AllocError>
    ensures { IfOk result (λ label. label ≡ text.now) }
{
    let text = String::from_str(alloc, text)?;
    Ok(Label::new(text))
}
