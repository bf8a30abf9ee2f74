//! What readers enter: one board, of which the writer keeps two copies.

use crate::edition::Edition;
use left_right::Absorb;
use std::alloc::AllocError;

/// The edition that is published.
#[derive(Drop)]
pub struct Shown {
    pub(crate) edition: Box<Edition>,
}

/// Publishing puts another edition in the place of the one before. The first copy is written over in place,
/// and the second takes the edition itself, so that a board is copied once and no memory is taken.
impl Absorb<Box<Edition>> for Shown {
    type State = Edition;

    ghost state = { λ s. s.edition.value };

    ghost applied = { λ before edition. edition.value };

    ghost never_fails = { Unit {0} };

    fn absorb_first(&mut self, operation: &Box<Edition>, _other: &Shown) -> Result<(), AllocError> {
        self.edition.copy_from(operation);
        Ok(())
    }

    fn absorb_second(
        &mut self,
        operation: Box<Edition>,
        _other: &Shown,
    ) -> Result<(), Box<Edition>> {
        self.edition = operation;
        Ok(())
    }
}
