ghost use Rattle.std.specs.Prelude.{◌≡◌, ◌≢◌, ℕ, ◌+◌, ◌*◌, ◌<◌, ◌≤◌, ◌^◌, [], ◌∷◌, ◌++◌, length, get_or, set, Some, None, IfOk, vec_len, vec_capacity};
ghost use Rattle.sd_rows.specs.Index.{taken_count, place_in, places_in, tags_in, cell_of, cells_of, hash_in, hashes_in, home_by, IsIndexed, HasHole};

use std::alloc::{AllocError, Global};

/// A cell of the index: the number of the place that it names and one, or 0 for none, and the hash by which it does.
#[derive(Clone, Copy, Debug)]
pub(crate) struct Cell {
    pub(crate) hash: u32,
    named: u32,
}

const _: () = prove!(size_of::<Cell>() == 8);

/// A cell that names no place.
const NO_CELL: Cell = Cell { hash: 0, named: 0 };

impl Cell {
    /// The cell that names a place.
    fn of(place: u32, hash: u32) -> Cell
        requires { place < 2 ^ 31 }
        ensures place { place_in result ≡ Some place }
        ensures hash { result.hash ≡ hash }
    {
        Cell {
            hash,
            named: place + 1,
        }
    }

    /// The place that it names.
    pub(crate) fn place(self) -> Option<u32>
        ensures { result ≡ place_in self }
    {
        if self.named == 0 {
            None
        } else {
            Some(self.named - 1)
        }
    }
}

/// Where the index has a place: the number of its cell and one, or 0 where it has none, and the hash by which it is found.
#[derive(Clone, Copy, Debug)]
pub(crate) struct Spot {
    hash: u32,
    cell: u32,
}

const _: () = prove!(size_of::<Spot>() == 8);

/// The spot of a place that isn't live.
const NO_SPOT: Spot = Spot { hash: 0, cell: 0 };

impl Spot {
    /// The spot of a place with this cell.
    fn at(cell: u32, hash: u32) -> Spot
        requires { cell + 1 < 2 ^ 32 }
        ensures cell { cell_of result ≡ cell }
        ensures hash { hash_in result ≡ Some hash }
    {
        Spot {
            hash,
            cell: cell + 1,
        }
    }
}

/// An open-addressed index: which place each cell names, and the cell of each place that was ever in use.
///
/// A place's home is told by its hash. Its cell is the home or the first free one behind it. There are half as many cells more than
/// homes, and at most half as many places, so no search goes round the end.
#[derive(Debug, Drop)]
pub(crate) struct Index {
    pub(crate) cells: Vec<Cell>,
    pub(crate) spots: Vec<Spot>,
    pub(crate) homes: u32,
}

impl Index {
    /// An index with room for so many places, and none of them yet.
    pub(crate) fn open(alloc: Global, n: u32) -> Result<Index, AllocError>
        requires { n ≤ 2 ^ 30 }
        ensures index { IfOk result IsIndexed }
        ensures spots { IfOk result (λ x. x.spots.items ≡ []) }
        ensures homes { IfOk result (λ x. x.homes ≡ 2 * n) }
        ensures room { IfOk result (λ x. n ≤ vec_capacity x.spots) }
    {
        Ok(Index {
            cells: vec![in alloc; NO_CELL; 3 * n as usize]?,
            spots: Vec::with_capacity(alloc, n as usize)?,
            homes: 2 * n,
        })
    }

    /// How many cells there are.
    pub(crate) fn end(&self) -> u32
        requires { 2 * length self.now.cells.items ≤ 3 * 2 ^ 31 }
        ensures { result ≡ length self.now.cells.items }
    {
        self.cells.len() as u32
    }

    /// The place that a cell names.
    pub(crate) fn place_at(&self, cell: u32) -> Option<u32>
        requires { cell < length self.now.cells.items }
        ensures { result ≡ get_or (places_in self.now.cells.items) cell None }
    {
        self.cells[cell as usize].place()
    }

    /// The hash in a cell.
    pub(crate) fn tag_at(&self, cell: u32) -> u32
        requires { cell < length self.now.cells.items }
        ensures { result ≡ get_or (tags_in self.now.cells.items) cell 0 }
    {
        self.cells[cell as usize].hash
    }

    /// The cell of a place that is live.
    fn cell_at(&self, place: u32) -> u32
        requires { place < length self.now.spots.items }
        ensures { result ≡ get_or (cells_of self.now.spots.items) place 0 }
    {
        self.spots[place as usize].cell.saturating_sub(1)
    }

    /// The cell at which the search for a hash begins.
    pub(crate) fn home(&self, hash: u32) -> u32
        ensures home { result ≡ home_by self.now.homes hash }
        ensures within { 0 < self.now.homes → result < self.now.homes }
    {
        ((u64::from(hash) * u64::from(self.homes)) >> 32) as u32
    }

    /// Notes one place more, which isn't live.
    pub(crate) fn push(&mut self)
        requires index { IsIndexed self.old }
        requires room { vec_len self.old.spots < vec_capacity self.old.spots }
        requires few { 2 * (length self.old.spots.items + 1) ≤ self.old.homes }
        ensures index { IsIndexed self.new }
        ensures hashes { hashes_in self.new.spots.items ≡ hashes_in self.old.spots.items ++ None ∷ [] }
        ensures homes { self.new.homes ≡ self.old.homes }
        ensures capacity { vec_capacity self.new.spots ≡ vec_capacity self.old.spots }
    {
        self.spots.push_reserved(NO_SPOT);
    }

    /// Takes a place in, under this hash.
    pub(crate) fn insert(&mut self, place: u32, hash: u32)
        requires index { IsIndexed self.old }
        requires within { place < length self.old.spots.items }
        requires empty { get_or (hashes_in self.old.spots.items) place None ≡ None }
        ensures index { IsIndexed self.new }
        ensures hashes { hashes_in self.new.spots.items ≡ set (hashes_in self.old.spots.items) place (Some hash) }
        ensures homes { self.new.homes ≡ self.old.homes }
        ensures capacity { vec_capacity self.new.spots ≡ vec_capacity self.old.spots }
    {
        let cell = self.free_cell(self.home(hash));
        self.cells[cell as usize] = Cell::of(place, hash);
        self.spots[place as usize] = Spot::at(cell, hash);
    }

    /// The first cell from a home on that names no place.
    fn free_cell(&self, home: u32) -> u32
        requires index { IsIndexed self.now }
        requires room { taken_count (hashes_in self.now.spots.items) < length self.now.spots.items }
        requires low { home < self.now.homes }
        ensures from { home ≤ result }
        ensures within { result < length self.now.cells.items }
        ensures empty { get_or (places_in self.now.cells.items) result None ≡ None }
        ensures before { (d : ℕ) → home ≤ d → d < result → get_or (places_in self.now.cells.items) d None ≢ None }
    {
        let end = self.end();
        for cell in home..end {
            if self.place_at(cell).is_none() {
                return cell;
            }
        }
        end
    }

    /// Takes a place out, and closes up the cells behind its own.
    pub(crate) fn remove(&mut self, place: u32)
        requires index { IsIndexed self.old }
        requires live { get_or (hashes_in self.old.spots.items) place None ≢ None }
        ensures index { IsIndexed self.new }
        ensures hashes { hashes_in self.new.spots.items ≡ set (hashes_in self.old.spots.items) place None }
        ensures homes { self.new.homes ≡ self.old.homes }
        ensures capacity { vec_capacity self.new.spots ≡ vec_capacity self.old.spots }
    {
        let mut hole = self.empty_cell(place);
        let end = self.end();
        for cell in hole + 1..end {
            let Some(next) = self.place_at(cell) else {
                return;
            };
            hole = self.close_up(hole, cell, next);
        }
    }

    /// Empties the cell of a place, which it answers.
    fn empty_cell(&mut self, place: u32) -> u32
        requires index { IsIndexed self.old }
        requires live { get_or (hashes_in self.old.spots.items) place None ≢ None }
        ensures hole { HasHole self.new result (result + 1) }
        ensures hashes { hashes_in self.new.spots.items ≡ set (hashes_in self.old.spots.items) place None }
        ensures within { result < length self.new.cells.items }
        ensures homes { self.new.homes ≡ self.old.homes }
        ensures capacity { vec_capacity self.new.spots ≡ vec_capacity self.old.spots }
    {
        let cell = self.cell_at(place);
        self.cells[cell as usize] = NO_CELL;
        self.spots[place as usize] = NO_SPOT;
        cell
    }

    /// Moves the place that a cell names to the hole before it, where its home isn't behind the hole. Answers where the hole is then.
    fn close_up(&mut self, hole: u32, cell: u32, place: u32) -> u32
        requires hole { HasHole self.old hole cell }
        requires before { hole < cell }
        requires within { cell < length self.old.cells.items }
        requires named { get_or (places_in self.old.cells.items) cell None ≡ Some place }
        ensures hole { HasHole self.new result (cell + 1) }
        ensures before { result ≤ cell }
        ensures hashes { hashes_in self.new.spots.items ≡ hashes_in self.old.spots.items }
        ensures homes { self.new.homes ≡ self.old.homes }
        ensures capacity { vec_capacity self.new.spots ≡ vec_capacity self.old.spots }
    {
        let moved = self.cells[cell as usize];
        if hole < self.home(moved.hash) {
            return hole;
        }
        self.cells[hole as usize] = moved;
        self.cells[cell as usize] = NO_CELL;
        self.spots[place as usize] = Spot::at(hole, moved.hash);
        cell
    }
}
