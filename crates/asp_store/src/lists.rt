//! For each literal, the list of those that watch it.
ghost use Rattle.std.specs.Prelude.{◌≡◌, ◌<◌, ◌++◌, ◌∷◌, [], Some, IfOk, OnOk, OnErr, length, replicate, slice_set};
ghost use Rattle.asp_vars.specs.Codes.{code_of};
ghost use Rattle.asp_store.specs.Lists.{list_at, place, size, without, Takes};

use crate::watch::Watch;
use asp_vars::lit::Lit;
use std::alloc::{AllocError, Global};
use std::marker::Model;
use std::mem;

// Most lists have no more: they fill the least block that an allocator gives.
const FIRST: usize = 3;

// A list that is empty gets room for the first ones at once.
fn make_room(list: &mut Vec<Watch>) -> Result<(), AllocError>
    ensures { list.new.items ≡ list.old.items }
{
    if list.capacity() == 0 {
        list.reserve_exact(FIRST)?;
    }
    Ok(())
}

// Adds a watch at the end of a list that has no room for it.
#[inline(never)]
fn push_anew(list: &mut Vec<Watch>, watch: Watch) -> Result<(), AllocError>
    ensures ok { OnOk result (list.new.items ≡ list.old.items ++ watch ∷ []) }
    ensures err { OnErr result (list.new.items ≡ list.old.items) }
{
    make_room(list)?;
    list.push(watch)?;
    Ok(())
}

// Adds a watch at the end of a list.
fn push_watch(list: &mut Vec<Watch>, watch: Watch) -> Result<(), AllocError>
    ensures ok { OnOk result (list.new.items ≡ list.old.items ++ watch ∷ []) }
    ensures err { OnErr result (list.new.items ≡ list.old.items) }
{
    if list.len() < list.capacity() {
        list.push_reserved(watch);
        return Ok(());
    }
    push_anew(list, watch)
}

/// A list of watches for each literal, by its code.
#[derive(Drop)]
pub struct WatchLists {
    // By the literal's code, 2 * variable + 0 or 1.
    lists: Vec<Vec<Watch>>,
}

impl Model for WatchLists {
    ghost use Rattle.std.specs.Prelude.{List, map};
    ghost use Rattle.asp_store.specs.Marks.{Watch};

    ghost Value = { List (List Watch) };

    ghost view = { λ l. map (λ v. v.items) l.lists.items };
}

impl WatchLists {
    /// n empty lists.
    pub fn new(alloc: Global, n: usize) -> Result<WatchLists, AllocError>
        ensures { IfOk result (λ l. l ≡ replicate n []) }
    {
        let mut lists = Vec::new(alloc);
        lists.reserve(n)?;
        for _ in 0..n {
            lists.push(Vec::new(alloc))?;
        }
        Ok(WatchLists { lists })
    }

    /// The length of the literal's list.
    pub fn len(&self, lit: Lit) -> usize
        requires { code_of lit < length self.now }
        ensures { result ≡ size self.now (code_of lit) }
    {
        self.lists[lit.code()].len()
    }

    /// The literal's list.
    pub fn list(&self, lit: Lit) -> &[Watch]
        requires { code_of lit < length self.now }
        ensures { result.now ≡ list_at self.now (code_of lit) }
    {
        self.lists[lit.code()].as_slice()
    }

    /// The i-th watch in the literal's list.
    pub fn watch(&self, lit: Lit, i: usize) -> Watch
        requires { i < size self.now (code_of lit) }
        ensures { place self.now (code_of lit) i ≡ Some result }
    {
        self.lists[lit.code()][i]
    }

    /// Puts a watch in the place of the i-th one.
    pub fn set_watch(&mut self, lit: Lit, i: usize, watch: Watch)
        requires { i < size self.old (code_of lit) }
        ensures { self.new ≡ slice_set self.old (code_of lit) (slice_set (list_at self.old (code_of lit)) i watch) }
    {
        let list = &mut self.lists[lit.code()];
        list[i] = watch;
    }

    /// Adds a watch at the end of the literal's list. Want of memory leaves the lists as they were.
    pub fn push(&mut self, lit: Lit, watch: Watch) -> Result<(), AllocError>
        requires { code_of lit < length self.old }
        ensures ok { OnOk result (self.new ≡ slice_set self.old (code_of lit) (list_at self.old (code_of lit) ++ watch ∷ [])) }
        ensures err { OnErr result (self.new ≡ self.old) }
    {
        push_watch(&mut self.lists[lit.code()], watch)
    }

    /// Takes the watches of a nogood out of the literal's list.
    pub fn drop_all(&mut self, lit: Lit, id: u32)
        requires { code_of lit < length self.old }
        ensures { self.new ≡ without id (code_of lit) self.old }
    {
        self.lists[lit.code()].retain(|watch| watch.id() != id);
    }

    /// Takes the i-th watch out of the literal's list. The last one takes its place.
    pub fn take(&mut self, lit: Lit, i: usize)
        requires { i < size self.old (code_of lit) }
        ensures { Takes self.old self.new (code_of lit) i }
    {
        self.lists[lit.code()].swap_remove(i);
    }

    /// Takes the literal's list out of the others: an empty one has its place.
    pub fn take_list(&mut self, lit: Lit) -> Vec<Watch>
        requires { code_of lit < length self.old }
        ensures list { result.items ≡ list_at self.old (code_of lit) }
        ensures left { self.new ≡ slice_set self.old (code_of lit) [] }
    {
        let empty = Vec::new(*self.lists[lit.code()].allocator());
        mem::replace(&mut self.lists[lit.code()], empty)
    }

    /// Gives the literal a list.
    pub fn put_list(&mut self, lit: Lit, list: Vec<Watch>)
        requires { code_of lit < length self.old }
        ensures { self.new ≡ slice_set self.old (code_of lit) list.items }
    {
        self.lists[lit.code()] = list;
    }
}
