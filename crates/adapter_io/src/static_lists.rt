//! The static data that these rows read.

use crate::rule_bytes::put_rules;
use adapter_pass::{ListAt, StaticData, TextAt};
use policy_data::{Arguments, Policy, Scratch, Variable, WorkingDirectory};
use std::alloc::Global;
use virt_base::{NoMemory, Text};

/// Where the static data of these rows stands. A list's texts stand in front of it, and an element says the place and the length of
/// each text in words of 32 bits.
#[derive(Clone, Copy, Debug)]
pub struct IoData {
    /// The policy's own variables in byte order of names: each name, and its value.
    pub set: ListAt,
    /// Names in byte order, each once. Where all of the host's variables are passed, they are `set`, and a variable of the host is
    /// kept where it is not among them. Else they are those that are passed and that `set` has not, each in 8 bytes, and one is kept
    /// where it is among them.
    pub filter: ListAt,
    pub arguments: ListAt,
    pub cwd: Option<TextAt>,
    /// Passed folders: the host's name of each, and the one that is shown.
    pub passes: ListAt,
    /// The roots of trees: the node of each, and its name.
    pub roots: ListAt,
    /// The element of the scratch folder: 0, and its name.
    pub scratch: Option<u32>,
    /// Rules on addresses.
    pub connect: ListAt,
    pub bind: ListAt,
}

/// The root of a tree.
#[derive(Clone, Copy, Debug)]
pub struct NamedRoot<'a> {
    pub node: u32,
    pub name: &'a [u8],
}

/// The words of a list in the making, whose texts stand in the static data already.
#[derive(Drop)]
struct List {
    words: Vec<u32>,
    count: u32,
}

impl List {
    fn new(alloc: Global) -> List {
        List {
            words: Vec::new(alloc),
            count: 0,
        }
    }

    // Adds a text to the element in the making.
    fn text(&mut self, data: &mut StaticData, bytes: &[u8]) -> Result<(), NoMemory> {
        let at = data.put_text(bytes)?;
        self.words.push(at.place)?;
        self.words.push(at.length)?;
        Ok(())
    }

    fn word(&mut self, word: u32) -> Result<(), NoMemory> {
        self.words.push(word)?;
        Ok(())
    }

    // The element is whole.
    fn end(&mut self) {
        self.count = self.count.saturating_add(1);
    }

    fn put(self, data: &mut StaticData) -> Result<ListAt, NoMemory> {
        data.align(4)?;
        let place = data.place();
        for word in &self.words {
            data.put_word(*word)?;
        }
        Ok(ListAt {
            place,
            count: self.count,
        })
    }
}

fn put_texts(alloc: Global, data: &mut StaticData, texts: &[Text]) -> Result<ListAt, NoMemory> {
    let mut list = List::new(alloc);
    for text in texts {
        list.text(data, text.bytes())?;
        list.end();
    }
    list.put(data)
}

fn put_set(alloc: Global, data: &mut StaticData, policy: &Policy) -> Result<ListAt, NoMemory> {
    let mut list = List::new(alloc);
    for variable in policy.env_set.as_slice() {
        list.text(data, variable.name.bytes())?;
        list.text(data, variable.value.bytes())?;
        list.end();
    }
    list.put(data)
}

fn is_set(set: &[Variable], name: &Text) -> bool {
    set.iter().any(|variable| variable.name.is_same(name))
}

fn is_last(names: &[Text], name: &Text) -> bool {
    match names.last() {
        Some(last) => last.is_same(name),
        None => false,
    }
}

// The names that are passed, in byte order, each once.
fn sorted(alloc: Global, policy: &Policy) -> Result<Vec<Text>, NoMemory> {
    let mut names = Vec::new(alloc);
    for name in policy.env_allow.as_slice() {
        names.push(name.copy(alloc)?)?;
    }
    names.sort()?;
    Ok(names)
}

// Those of them that the policy does not set.
fn passed(alloc: Global, policy: &Policy) -> Result<Vec<Text>, NoMemory> {
    let mut kept = Vec::new(alloc);
    for name in sorted(alloc, policy)? {
        if !is_last(&kept, &name) && !is_set(policy.env_set.as_slice(), &name) {
            kept.push(name)?;
        }
    }
    Ok(kept)
}

fn put_filter(
    alloc: Global,
    data: &mut StaticData,
    policy: &Policy,
    set: ListAt,
) -> Result<ListAt, NoMemory> {
    if policy.env_pass {
        return Ok(set);
    }
    let names = passed(alloc, policy)?;
    put_texts(alloc, data, &names)
}

fn put_arguments(
    alloc: Global,
    data: &mut StaticData,
    policy: &Policy,
) -> Result<ListAt, NoMemory> {
    match &policy.env_arguments {
        Arguments::Given(texts) => put_texts(alloc, data, texts.as_slice()),
        _ => put_texts(alloc, data, &[]),
    }
}

fn put_cwd(data: &mut StaticData, policy: &Policy) -> Result<Option<TextAt>, NoMemory> {
    match &policy.env_cwd {
        WorkingDirectory::Given(text) => Ok(Some(data.put_text(text.bytes())?)),
        _ => Ok(None),
    }
}

fn put_passes(alloc: Global, data: &mut StaticData, policy: &Policy) -> Result<ListAt, NoMemory> {
    let mut list = List::new(alloc);
    for pass in policy.fs_pass.as_slice() {
        list.text(data, pass.host.bytes())?;
        list.text(data, pass.shown.bytes())?;
        list.end();
    }
    list.put(data)
}

fn put_roots(
    alloc: Global,
    data: &mut StaticData,
    roots: &[NamedRoot],
) -> Result<ListAt, NoMemory> {
    let mut list = List::new(alloc);
    for root in roots {
        list.word(root.node)?;
        list.text(data, root.name)?;
        list.end();
    }
    list.put(data)
}

fn put_scratch(
    alloc: Global,
    data: &mut StaticData,
    scratch: &Option<Scratch>,
) -> Result<Option<u32>, NoMemory> {
    match scratch {
        Some(scratch) => {
            let mut list = List::new(alloc);
            list.word(0)?;
            list.text(data, scratch.name.bytes())?;
            Ok(Some(list.put(data)?.place))
        }
        None => Ok(None),
    }
}

/// Adds the static data of these rows after that of the trees, whose roots these are, in the policy's order.
pub fn put_static(
    alloc: Global,
    data: &mut StaticData,
    policy: &Policy,
    roots: &[NamedRoot],
) -> Result<IoData, NoMemory> {
    let set = put_set(alloc, data, policy)?;
    let filter = put_filter(alloc, data, policy, set)?;
    let arguments = put_arguments(alloc, data, policy)?;
    let cwd = put_cwd(data, policy)?;
    let passes = put_passes(alloc, data, policy)?;
    let roots = put_roots(alloc, data, roots)?;
    let scratch = put_scratch(alloc, data, &policy.fs_scratch)?;
    let connect = put_rules(data, policy.net.connect.as_slice())?;
    let bind = put_rules(data, policy.net.bind.as_slice())?;
    Ok(IoData {
        set,
        filter,
        arguments,
        cwd,
        passes,
        roots,
        scratch,
        connect,
        bind,
    })
}
