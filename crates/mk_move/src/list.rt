ghost use Rattle.std.specs.Prelude.{◌≡◌, ◌<◌, length, slice_get, Some};
ghost use Rattle.mk_move.specs.MoveLists.{MoveListView};

use crate::moves::Move;

/// A list of moves, all of as many columns, fewer than 2^32 of them.
pub trait MoveList {
    ghost list: { Self → MoveListView };

    /// How many columns its moves have.
    fn columns(&self) -> u32
        ensures { result ≡ (list self.now).columns };

    /// How many moves it has.
    fn len(&self) -> u32
        ensures { result ≡ length (list self.now).moves };

    /// The move of a place.
    fn move_at(&self, k: u32) -> &Move
        requires { k < length (list self.now).moves }
        ensures value { slice_get (list self.now).moves k ≡ Some result.now }
        ensures columns { length result.now.entries ≡ (list self.now).columns };
}
