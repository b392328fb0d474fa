// An element of a lent tree, and what it has.
ghost use Rattle.std.specs.Prelude.{◌≡◌, [], ◌+◌, drop};
ghost use Rattle.std.specs.Iterator.{YieldsFirstBy, item_count};
ghost use Rattle.definition.specs.Base.{same, ◌or◌};
ghost use Rattle.definition.specs.Tree.{all, text_of as text_in};
ghost use Rattle.tree.specs.Place.{meaning, later, list_of, left, Starts};
ghost use Rattle.tree.specs.Root.{own_text as own};

// An element: its tree's bytes, and where its record begins. Where no record is whole there stands an element with no name, text or child.
// Names and texts are bytes and no &str: `judge` tests once that they are UTF-8, and what is said here holds for any bytes.
#[derive(Clone, Copy, Debug, PartialEq, Eq)]
pub struct Element<'a> {
    pub tree: &'a [u8],
    pub at: usize,
}

impl<'a> Element<'a> {
    // Its name.
    fn name(self) -> &'a [u8]
        ensures { result.now ≡ (meaning self.entry).name }
    {
        crate::read_head(self.tree, self.at).map_or(&[], |h| h.name)
    }

    // Whether it has the name.
    #[tactic(auto, using(text::proofs::Equal::same_is))]
    pub fn name_is(self, name: &[u8]) -> bool
        ensures { result ≡ same (meaning self.entry).name name.now }
    {
        self.name() == name
    }

    // The first child of the name.
    pub fn child(self, name: &[u8]) -> Option<Element<'a>>
        ensures { Starts self.entry.tree.now name.now (all (meaning self.entry) name.now) (self.entry.at + 1) result }
    {
        let h = crate::read_head(self.tree, self.at)?;
        crate::find(self.tree, h.next, h.depth + 1, name)
    }

    // The next sibling of the name. `child` looks one level below: a function for both would be a name for one line.
    pub fn next(self, name: &[u8]) -> Option<Element<'a>>
        ensures { Starts self.entry.tree.now name.now (later name.now self.entry) (self.entry.at + 1) result }
    {
        let h = crate::read_head(self.tree, self.at)?;
        crate::find(self.tree, h.next, h.depth, name)
    }

    // The one behind the first n of its next siblings of the name. One walk: `next` n + 1 times would
    // read each of their heads twice.
    pub fn nth_next(self, name: &[u8], n: usize) -> Option<Element<'a>>
        ensures { Starts self.entry.tree.now name.now (drop n (later name.now self.entry)) (self.entry.at + 1) result }
    {
        let h = crate::read_head(self.tree, self.at)?;
        crate::find_nth(self.tree, h.next, h.depth, name, n)
    }

    // Its text.
    fn text(self) -> &'a [u8]
        ensures { result.now ≡ (meaning self.entry).text }
    {
        crate::read_head(self.tree, self.at).map_or(&[], |h| h.text)
    }

    // Its trimmed text.
    pub fn own_text(self) -> &'a [u8]
        ensures { result.now ≡ (own (meaning self.entry) or []) }
    {
        text::trim(self.text())
    }

    // The trimmed text of its first child of the name, empty where there is none.
    pub fn text_of(self, name: &[u8]) -> &'a [u8]
        ensures { result.now ≡ (text_in (meaning self.entry) name.now or []) }
    {
        let Some(c) = self.child(name) else {
            return &[];
        };
        c.own_text()
    }

    // Its children of the name, in their order.
    #[tactic(auto, unfolding(crate::specs::Place::behind))]
    pub fn children<'n>(self, name: &'n [u8]) -> Children<'a, 'n>
        ensures { left result ≡ all (meaning self.entry) name.now }
    {
        Children {
            parent: self,
            name,
            last: None,
        }
    }
}

// The children of a name. The next one is sought when it is asked for: who stops early does not pass over what stands below the last one.
#[derive(Clone, Copy, Debug, PartialEq, Eq)]
pub struct Children<'a, 'n> {
    parent: Element<'a>,
    name: &'n [u8],
    last: Option<Element<'a>>,
}

impl<'a, 'n> Children<'a, 'n> {
    // The one that comes next.
    #[tactic(auto, using(crate::proofs::Left::left_all, crate::proofs::Left::left_behind))]
    fn following(self) -> Option<Element<'a>>
        ensures { left self.entry ≡ list_of self.entry.name.now result }
    {
        match self.last {
            None => self.parent.child(self.name),
            Some(e) => e.next(self.name),
        }
    }
}

impl<'a, 'n> Iterator for Children<'a, 'n> {
    type Item = Element<'a>;

    ghost next_gives = { YieldsFirstBy meaning left };

    ghost remaining = { item_count left };

    fn next(&mut self) -> Option<Element<'a>> {
        let e = self.following()?;
        self.last = Some(e);
        Some(e)
    }
}
