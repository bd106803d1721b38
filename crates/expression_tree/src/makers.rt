// How what stands in a box is made. Want of memory is refused, and what was to become a part is let go.
ghost use Rattle.cursor.specs.Promises.{Makes};
ghost use Rattle.expression_tree.specs.Trees.{expr_of, simp_of, fac_of, plain, related, paren, negated};

use crate::{Expression, Factor, Relation, Simple};
use std::alloc::{AllocError, Global};

impl<'t> Expression<'t> {
    pub fn of_plain(heap: Global, simple: Simple<'t>) -> Result<Expression<'t>, AllocError>
        ensures { Makes expr_of result (plain (simp_of simple.entry)) }
    {
        Ok(Expression::Plain(Box::new(heap, simple)?))
    }

    pub fn of_related(
        heap: Global,
        left: Simple<'t>,
        relation: Relation,
        right: Simple<'t>,
    ) -> Result<Expression<'t>, AllocError>
        ensures { Makes expr_of result (related (simp_of left.entry) relation (simp_of right.entry)) }
    {
        let left = Box::new(heap, left)?;
        let right = Box::new(heap, right)?;
        Ok(Expression::Related(left, relation, right))
    }
}

impl<'t> Factor<'t> {
    pub fn of_paren(
        heap: Global,
        place: usize,
        inner: Expression<'t>,
    ) -> Result<Factor<'t>, AllocError>
        ensures { Makes fac_of result (paren place (expr_of inner.entry)) }
    {
        Ok(Factor::Paren(place, Box::new(heap, inner)?))
    }

    pub fn of_not(heap: Global, place: usize, inner: Factor<'t>) -> Result<Factor<'t>, AllocError>
        ensures { Makes fac_of result (negated place (fac_of inner.entry)) }
    {
        Ok(Factor::Not(place, Box::new(heap, inner)?))
    }
}
