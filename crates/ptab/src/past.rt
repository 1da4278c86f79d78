//! A history of calls that only proofs read. It takes no memory, and its methods do nothing at run time.

ghost use Rattle.std.specs.Prelude.{◌≡◌, List, [], ◌∷◌};
ghost use Rattle.std.specs.Borrow.{ftrue};
ghost use Rattle.std.specs.declared.fs.File.{File as FileValue};
ghost use Rattle.pt_answers.specs.Images.{Call, Closed, Opened, PlanOpened, Sized, TableOpened};

use pt_answers::Opening;
use pt_disks::{Access, NoDevice, OpenError};
use std::fs::File;
use std::marker::{Model, PhantomData};

/// The calls that opened images as disks `D`. A clause reads them as `calls`, the newest first.
#[derive(Drop)]
pub struct Past<D> {
    of: PhantomData<D>,
    pub ghost calls: { List (Call D FileValue) },
}

impl<D> Model for Past<D> {
    ghost also_owns = { λ _. ftrue };
}

impl<D> Past<D> {
    pub fn new() -> Past<D>
        ensures { result.calls ≡ [] }
    {
        Past::of(&())
    }

    /// Holds whatever a proof supposes, by a value that it may speak of.
    fn of<X>(_by: &X) -> Past<D>
        ghost supposed: { List (Call D FileValue) }
        ensures { result.calls ≡ supposed }
    {
        Past { of: PhantomData }
    }

    #[tactic(auto, using(crate::proofs::Lifetimes::of_found))]
    pub fn sized(&self, path: &str, found: &Result<u64, NoDevice>) -> Past<D>
        ensures { result.calls ≡ Sized path.now found.now ∷ self.now.calls }
    {
        Past::of(&(self, path, found))
    }

    #[tactic(auto, using(crate::proofs::Lifetimes::of_opened))]
    pub fn opened(
        &self,
        path: &str,
        opening: Opening,
        access: Access,
        opened: &Result<D, NoDevice>,
    ) -> Past<D>
        ensures { result.calls ≡ Opened path.now opening access opened.now ∷ self.now.calls }
    {
        Past::of(&(self, path, opening, access, opened))
    }

    #[tactic(auto, using(crate::proofs::Lifetimes::of_closed))]
    pub fn closed(&self, disk: &D) -> Past<D>
        ensures { result.calls ≡ Closed disk.now ∷ self.now.calls }
    {
        Past::of(&(self, disk))
    }

    #[tactic(auto, using(crate::proofs::Lifetimes::of_found))]
    pub fn table_opened(&self, path: &str, opened: &Result<File, OpenError>) -> Past<D>
        ensures { result.calls ≡ TableOpened path.now opened.now ∷ self.now.calls }
    {
        Past::of(&(self, path, opened))
    }

    #[tactic(auto, using(crate::proofs::Lifetimes::of_found))]
    pub fn plan_opened(&self, path: &str, opened: &Result<File, OpenError>) -> Past<D>
        ensures { result.calls ≡ PlanOpened path.now opened.now ∷ self.now.calls }
    {
        Past::of(&(self, path, opened))
    }
}
