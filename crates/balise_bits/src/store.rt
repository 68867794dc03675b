//! Bytes, stored inline while they are few.

ghost use Rattle.std.specs.Prelude.{◌≡◌, ◌≤◌, ◌<◌, ◌+◌, ◌-◌, ◌*◌, ◌^◌, ◌++◌, [], length, replicate, take, IfOk, OnErr, OnOk};
ghost use Rattle.balise_rules.specs.Bits.{bits};
ghost use Rattle.balise_rules.specs.Digits.{fill};
ghost use Rattle.balise_bits.specs.Bytes.{flat};
ghost use Rattle.std.specs.Borrow.{sem};
ghost use Rattle.balise_bits.specs.Data.{data_items};
ghost use Rattle.balise_bits.specs.StoreLends.{small_lends, data_lends, store_lends};

use crate::cells::Cells;
use crate::window::put_in;
use std::alloc::{AllocError, Global};
use std::marker::Model;

/// The most bytes that are stored inline.
pub(crate) const IN_PLACE: usize = 29;

/// The most bytes that are stored, so that a usize counts their bits.
pub(crate) const MOST: usize = 2305843009213693951;

/// Bytes stored inline.
#[derive(Drop)]
struct Small {
    cells: Cells<u8, 29>,
    count: u8,
}

impl Model for Small {
    ghost use Rattle.std.specs.Prelude.{◌≡◌, ◌≤◌, length, take};
    ghost use Rattle.balise_bits.specs.Stored.{Placed};

    ghost Value = { Placed };

    ghost view = { λ v. record { items = take v.count v.cells.xs } };

    ghost invariant = { λ v. (v.count ≤ 29) × (length v.cells.xs ≡ 29) };
}

impl Small {
    // `count` zeros.
    fn zeros(count: usize) -> Small
        requires { count ≤ 29 }
        ensures { result.items ≡ replicate count 0 }
    {
        Small {
            cells: Cells { xs: [0; 29] },
            count: count as u8,
        }
    }

    // The first `count` of the eight bytes of a number, the first one highest.
    #[inline(always)]
    fn of_number(number: u64, count: usize) -> Small
        requires { count ≤ 8 }
        ensures { flat result.items ≡ take (8 * count) (bits 64 number) }
    {
        let mut xs = [0; 29];
        put_in(&mut xs[..8], number);
        Small {
            cells: Cells { xs },
            count: count as u8,
        }
    }

    fn copy(&self) -> Small
        ensures { result ≡ self.now }
    {
        Small {
            cells: self.cells,
            count: self.count,
        }
    }

    #[inline]
    fn as_slice(&self) -> &[u8]
        ensures value { result.now ≡ self.now.items }
        ensures fits { length result.now ≤ 29 }
    {
        &self.cells.xs[..usize::from(self.count)]
    }

    #[inline]
    fn as_mut_slice(&mut self) -> &mut [u8]
        ensures* writes_back { sem 𝓛 (small_lends self.entry result) }
        ensures value { result.now ≡ self.old.items }
    {
        let count = usize::from(self.count);
        self.cells.front_mut(count)
    }

    // Adds zeros at the end.
    fn add_zeros(&mut self, more: usize)
        requires { length self.old.items + more ≤ 29 }
        ensures { self.new.items ≡ self.old.items ++ replicate more 0 }
    {
        let count = usize::from(self.count);
        self.cells.front_mut(count + more)[count..].fill(0);
        self.count = (count + more) as u8;
    }
}

#[derive(Drop)]
enum Data {
    Inline(u8, Small),
    Heap(u8, Vec<u8>),
}

impl Data {
    #[inline]
    fn as_mut_slice(&mut self) -> &mut [u8]
        ensures* writes_back { sem 𝓛 (data_lends self.entry result) }
        ensures value { result.now ≡ data_items self.old }
    {
        match self {
            Data::Inline(_, small) => small.as_mut_slice(),
            Data::Heap(_, heap) => heap.as_mut_slice(),
        }
    }
}

/// Bytes, up to 29 of them stored inline, and how many of their bits count: all but the spare ones at the end.
#[derive(Drop)]
pub(crate) struct Store {
    data: Data,
    alloc: Global,
}

impl Model for Store {
    ghost use Rattle.balise_bits.specs.Stored.{Stored};
    ghost use Rattle.balise_bits.specs.Data.{data_view, IsSound};

    ghost Value = { Stored };

    ghost view = { λ s. data_view s.data };

    ghost invariant = { λ s. IsSound s.data };
}

impl Store {
    /// No bytes. Takes no memory.
    pub(crate) fn new(alloc: Global) -> Store
        ensures items { result.items ≡ [] }
        ensures len { result.len ≡ 0 }
    {
        Store {
            data: Data::Inline(0, Small::zeros(0)),
            alloc,
        }
    }

    /// No bytes, with room for `count`.
    pub(crate) fn with_capacity(alloc: Global, count: usize) -> Result<Store, AllocError>
        ensures items { IfOk result (λ s. s.items ≡ []) }
        ensures len { IfOk result (λ s. s.len ≡ 0) }
    {
        if count <= IN_PLACE {
            return Ok(Store::new(alloc));
        }
        let heap = Vec::with_capacity(alloc, count)?;
        Ok(Store {
            data: Data::Heap(0, heap),
            alloc,
        })
    }

    /// `count` zeros. All of their bits count but the last `spare`.
    pub(crate) fn zeros(alloc: Global, count: usize, spare: u8) -> Result<Store, AllocError>
        requires spare { spare ≤ 8 * count }
        requires fits { 8 * count < 2 ^ 64 }
        ensures items { IfOk result (λ s. s.items ≡ replicate count 0) }
        ensures len { IfOk result (λ s. s.len ≡ 8 * count - spare) }
    {
        if count <= IN_PLACE {
            return Ok(Store {
                data: Data::Inline(spare, Small::zeros(count)),
                alloc,
            });
        }
        let heap = vec![in alloc; 0u8; count]?;
        Ok(Store {
            data: Data::Heap(spare, heap),
            alloc,
        })
    }

    /// The first `len` of the 64 bits of a number, in whole bytes. Takes no memory.
    #[inline(always)]
    pub(crate) fn of_number(alloc: Global, number: u64, len: usize) -> Store
        requires { len ≤ 64 }
        ensures items { flat result.items ≡ take (len + fill len) (bits 64 number) }
        ensures len { result.len ≡ len }
    {
        let count = len.div_ceil(8);
        let spare = (8 * count - len) as u8;
        Store {
            data: Data::Inline(spare, Small::of_number(number, count)),
            alloc,
        }
    }

    /// How many bits count.
    #[inline]
    pub(crate) fn len(&self) -> usize
        ensures { result ≡ self.now.len }
    {
        match &self.data {
            Data::Inline(spare, small) => 8 * small.as_slice().len() - usize::from(*spare),
            Data::Heap(spare, heap) => 8 * heap.len() - usize::from(*spare),
        }
    }

    /// The bytes.
    #[inline]
    pub(crate) fn as_slice(&self) -> &[u8]
        ensures value { result.now ≡ self.now.items }
        ensures fits { 8 * length result.now < 2 ^ 64 }
    {
        match &self.data {
            Data::Inline(_, small) => small.as_slice(),
            Data::Heap(_, heap) => heap.as_slice(),
        }
    }

    /// The bytes, for writing.
    #[inline]
    pub(crate) fn as_mut_slice(&mut self) -> &mut [u8]
        ensures* writes_back { sem 𝓛 (store_lends self.entry result) }
        ensures value { result.now ≡ self.old.items }
    {
        self.data.as_mut_slice()
    }

    /// How many bits at the end don't count.
    #[inline]
    pub(crate) fn spare(&self) -> u8
        ensures { result + self.now.len ≡ 8 * length self.now.items }
    {
        match &self.data {
            Data::Inline(spare, _) => *spare,
            Data::Heap(spare, _) => *spare,
        }
    }

    /// Sets how many bits at the end don't count.
    #[inline]
    pub(crate) fn set_spare(&mut self, spare: u8)
        requires { spare ≤ 8 * length self.old.items }
        ensures items { self.new.items ≡ self.old.items }
        ensures len { self.new.len ≡ 8 * length self.old.items - spare }
    {
        match &mut self.data {
            Data::Inline(held, _) => *held = spare,
            Data::Heap(held, _) => *held = spare,
        }
    }

    /// Adds `more` zeros at the end. If memory runs out, nothing changes.
    pub(crate) fn add_zeros(&mut self, more: usize) -> Result<(), AllocError>
        requires { 8 * (length self.old.items + more) < 2 ^ 64 }
        ensures items { OnOk result (self.new.items ≡ self.old.items ++ replicate more 0) }
        ensures err { OnErr result (self.new ≡ self.old) }
    {
        match &mut self.data {
            Data::Inline(spare, small) => {
                let count = small.as_slice().len() + more;
                if count <= IN_PLACE {
                    small.add_zeros(more);
                    return Ok(());
                }
                let heap = spilled(self.alloc, small.as_slice(), count)?;
                self.data = Data::Heap(*spare, heap);
                Ok(())
            }
            Data::Heap(_, heap) => heap.resize(heap.len() + more, 0),
        }
    }

    /// Adds the bytes of another store after these, whose bits all count. If memory runs out, nothing changes.
    #[inline(always)]
    pub(crate) fn append(&mut self, other: &Store) -> Result<(), AllocError>
        requires whole { self.old.len ≡ 8 * length self.old.items }
        requires fits { 8 * (length self.old.items + length other.now.items) < 2 ^ 64 }
        ensures items { OnOk result (self.new.items ≡ self.old.items ++ other.now.items) }
        ensures len { OnOk result (self.new.len ≡ self.old.len + other.now.len) }
        ensures err { OnErr result (self.new ≡ self.old) }
    {
        if let Data::Heap(spare, heap) = &mut self.data {
            heap.extend_from_slice(other.as_slice())?;
            *spare = other.spare();
            return Ok(());
        }
        let at = self.as_slice().len();
        self.add_zeros(other.as_slice().len())?;
        self.as_mut_slice()[at..].copy_from_slice(other.as_slice());
        self.set_spare(other.spare());
        Ok(())
    }

    /// A copy of the bytes.
    pub(crate) fn copy(&self) -> Result<Store, AllocError>
        ensures { IfOk result (λ s. s ≡ self.now) }
    {
        let data = match &self.data {
            Data::Inline(spare, small) => Data::Inline(*spare, small.copy()),
            Data::Heap(spare, heap) => Data::Heap(
                *spare,
                spilled(self.alloc, heap.as_slice(), heap.len())?,
            ),
        };
        Ok(Store {
            data,
            alloc: self.alloc,
        })
    }

    /// The allocator that its memory comes from.
    pub(crate) fn allocator(&self) -> Global {
        self.alloc
    }
}

// The bytes in an allocation of their own, with zeros after them up to `count` bytes.
fn spilled(alloc: Global, bytes: &[u8], count: usize) -> Result<Vec<u8>, AllocError>
    requires { length bytes.now ≤ count }
    ensures { IfOk result (λ v. v.items ≡ bytes.now ++ replicate (count - length bytes.now) 0) }
{
    let mut heap = Vec::with_capacity(alloc, count)?;
    heap.extend_from_slice(bytes)?;
    heap.resize(count, 0)?;
    Ok(heap)
}
