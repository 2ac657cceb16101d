//! LIST, SET, BAG or ARRAY with its bounds, without its element.

ghost use Rattle.std.specs.Prelude.{◌≡◌, IfOk};
ghost use Rattle.p21_express.specs.Plain.{plain_expr};
ghost use Rattle.p21_express.specs.Layer.{plain_layer};
ghost use Rattle.p21_express.specs.Schema.{aggregate};

use crate::declarations::{Bounds, TypeExpr};
use std::alloc::{AllocError, Global};

#[derive(Clone, Copy)]
pub(crate) enum Layer {
    /// Its bounds, and whether an element may be left out.
    Array(Bounds, bool),
    /// Its bounds, and whether its elements are to differ.
    List(Bounds, bool),
    Set(Bounds),
    Bag(Bounds),
}

impl Layer {
    /// The aggregate of this element.
    pub(crate) fn around(self, alloc: Global, item: TypeExpr) -> Result<TypeExpr, AllocError>
        ensures { IfOk result (λ e. plain_expr e ≡ aggregate (plain_layer self) (plain_expr item)) }
    {
        let item = Box::new(alloc, item)?;
        Ok(match self {
            Layer::Array(bounds, optional) => TypeExpr::Array {
                bounds,
                optional,
                item,
            },
            Layer::List(bounds, unique) => TypeExpr::List {
                bounds,
                unique,
                item,
            },
            Layer::Set(bounds) => TypeExpr::Set { bounds, item },
            Layer::Bag(bounds) => TypeExpr::Bag { bounds, item },
        })
    }
}
