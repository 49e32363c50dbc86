ghost use Rattle.std.specs.Prelude.{◌≡◌, ◌<◌, length, IfOk, slice_get};
ghost use Rattle.mk_model.specs.Orders.{standard, list_of_column};
ghost use Rattle.mk_move.specs.Priorities.{IsPriority};

use mk_model::NoMemory;
use std::alloc::Global;
use std::marker::Model;

/// A list of all columns, each once: the first that differs decides. (Sturmfels, chapter 1)
#[derive(Debug, Drop)]
pub struct Priority {
    columns: Vec<u32>,
}

impl Model for Priority {
    ghost use Rattle.std.specs.Prelude.{List, ℕ};
    ghost use Rattle.mk_move.specs.Priorities.{IsPriority};

    ghost Value = { List ℕ };

    ghost view = { λ p. p.columns.items };

    ghost invariant = { λ p. IsPriority p.columns.items };
}

impl Priority {
    /// The standard list: so many columns, from the last to the first.
    pub fn standard(alloc: Global, columns: u32) -> Result<Priority, NoMemory>
        ensures { IfOk result (λ list. list ≡ standard columns) }
    {
        let mut list = Vec::new(alloc);
        let mut left = columns;
        while left > 0 {
            left -= 1;
            list.push(left)?;
        }
        Ok(Priority { columns: list })
    }

    /// The list that names one column first, and then the others from the last to the first.
    pub fn first(alloc: Global, columns: u32, column: u32) -> Result<Priority, NoMemory>
        requires { column < columns }
        ensures { IfOk result (λ list. list ≡ list_of_column columns column) }
    {
        let mut list = Vec::new(alloc);
        list.push(column)?;
        let mut end = columns;
        while end > 0 {
            end -= 1;
            if end != column {
                list.push(end)?;
            }
        }
        Ok(Priority { columns: list })
    }

    /// A copy of it.
    pub fn try_copy(&self) -> Result<Priority, NoMemory>
        ensures { IfOk result (λ copy. copy ≡ self.now) }
    {
        let alloc = *self.columns.allocator();
        Ok(Priority {
            columns: Vec::from_slice(alloc, &self.columns)?,
        })
    }

    /// The column at a place of the list: each is less than their number.
    pub fn column_at(&self, n: u32) -> u32
        requires { n < length self.now }
        ensures value { slice_get self.now n ≡ Some result }
        ensures range { result < length self.now }
    {
        self.columns[n as usize]
    }

    /// How many columns it names.
    pub fn columns(&self) -> u32
        ensures { result ≡ length self.now }
    {
        self.columns.len() as u32
    }

    /// The columns, the first of them first.
    pub fn as_slice(&self) -> &[u32]
        ensures value { result.now ≡ self.now }
        ensures kept { IsPriority self.now }
    {
        &self.columns
    }
}
