// How what stands in a box is made. Want of memory is refused, and what was to become a part is let go.
ghost use Rattle.cursor.specs.Promises.{Makes};
ghost use Rattle.type_tree.specs.Trees.{con_of, typ_of, array_of};

use crate::{Constant, TypeExpr};
use std::alloc::{AllocError, Global};

impl<'t> TypeExpr<'t> {
    pub fn of_array(
        heap: Global,
        place: usize,
        low: Constant<'t>,
        high: Constant<'t>,
        element: TypeExpr<'t>,
    ) -> Result<TypeExpr<'t>, AllocError>
        ensures { Makes typ_of result (array_of place (con_of low.entry) (con_of high.entry) (typ_of element.entry)) }
    {
        Ok(TypeExpr::Array(place, low, high, Box::new(heap, element)?))
    }
}
