// The table in the making: beside the lent odds and links two lists of slots, which run through the links. It is the Rust's
// `Aliases`, with the odds and the sum that its lists go by.
ghost use Rattle.std.specs.Prelude.{◌≡◌, ◌<◌, ◌≤◌, length};
ghost use Rattle.weighted_alias.specs.Lists as lists;

// The mark of a list's end, in the links too.
const END: u32 = u32::MAX;

#[derive(Drop)]
pub(crate) struct Aliases<'a> {
    odds: &'a mut [u64],
    links: &'a mut [u32],
    sum: u64,
    pub(crate) small: u32,
    pub(crate) big: u32,
}

impl<'a> Aliases<'a> {
    // Every slot is put on its list, in index order.
    pub(crate) fn split(odds: &'a mut [u64], links: &'a mut [u32], sum: u64) -> Aliases<'a>
        requires { (length links.old ≡ length odds.old) × (length odds.old ≤ 4096) }
        ensures odds { (result.odds.ghost_name ≡ odds.entry.ghost_name) × (result.odds.now ≡ odds.old) }
        ensures links { result.links.ghost_name ≡ links.entry.ghost_name }
        ensures sum { result.sum ≡ sum }
        ensures listed { lists.Split sum odds.old links.old (length odds.old) result.links.now (lists.heads result) }
    {
        let n = odds.len();
        let mut aliases = Aliases {
            odds,
            links,
            sum,
            small: END,
            big: END,
        };
        for slot in 0..n {
            aliases.push(slot);
        }
        aliases
    }

    // Puts a slot on the head of the list that its odds say.
    fn push(&mut self, slot: usize)
        requires { (slot < length self.old.odds.now) × (length self.old.odds.now ≤ 4096) × (length self.old.links.now ≡ length self.old.odds.now) }
        ensures { lists.Pushes self.old slot self.new }
    {
        if self.odds[slot] < self.sum {
            self.links[slot] = self.small;
            self.small = slot as u32;
        } else {
            self.links[slot] = self.big;
            self.big = slot as u32;
        }
    }

    // Takes both heads: the small slot is made up from the big one, which goes back on the list that its new odds say.
    fn pair_heads(&mut self)
        requires { lists.Turn self.old.sum self.old.odds.now self.old.links.now (lists.heads self.old) }
        ensures { lists.Turns self.old self.new }
    {
        let small = self.small as usize;
        let big = self.big as usize;
        self.small = self.links[small];
        self.big = self.links[big];
        self.links[small] = big as u32;
        self.odds[big] = self.odds[big] - self.sum + self.odds[small];
        self.push(big);
    }

    // Takes heads while both lists have one.
    pub(crate) fn pair_up(&mut self)
        requires { lists.Ready self.old.sum self.old.odds.now self.old.links.now (lists.heads self.old) }
        ensures { lists.Pairs self.old self.new }
    {
        while self.small != END && self.big != END {
            self.pair_heads();
        }
    }

    // Every slot of a list gets the sum as its odds.
    pub(crate) fn settle(&mut self, head: u32)
        requires { lists.Settles self.old.odds.now self.old.links.now head }
        ensures { lists.Settled self.old head self.new }
    {
        let mut slot = head;
        while slot != END {
            let at = slot as usize;
            self.odds[at] = self.sum;
            slot = self.links[at];
        }
    }
}
