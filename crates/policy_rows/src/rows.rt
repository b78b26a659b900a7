//! Texts of policies, and what they say. `holding` says how a table is read, `shown` what a row leaves out.

/// What is a document, by the grammar of TOML 1.1.
pub const DOCUMENTS: &str = r#"# nothing => Ok()
a = => Err(NotToml)
a = 1
a = 2 => Err(NotToml)
slots
= 1 => Err(NotToml)
slots =
1 => Err(NotToml)
slots = 9223372036854775808 => Err(NotToml)
slots = -9223372036854775809 => Err(NotToml)
slots = -9223372036854775808 => Err(BadValue("slots"))
slots = 1e308 => Err(BadValue("slots"))
slots = 1e999 => Err(NotToml)
slots = 07:32 => Err(BadValue("slots"))
slots = 07:3 => Err(NotToml)
slots = 0x10 => Ok(slots: 16)
"slots" = 1 => Ok(slots: 1)
env.set = { A = 'a', # the first
  B = 'b',
} => Ok(env_set: [name: "A", value: "a", name: "B", value: "b"])
env.cwd = "\e\x41" => Ok(env_cwd: Given("\u{1b}A"))
[env]
pass = true
[[fs.tree]]
name = 't'
[[fs.tree]]
name = 'u' => Ok(env_pass: true, fs_tree: [name: "t", content: Embedded(files: [], folders: [], links: []), name: "u", content: Embedded(files: [], folders: [], links: [])])
env.set = { A = "1" }
stdio.stdout = "allow" => Ok(env_set: [name: "A", value: "1"], stdio_stdout: Allow)
random = "allow"
clocks.monotonic = 5 => Ok(clocks_monotonic: Fixed(5), random: Allow)
version = 2
slots = 16
clocks.wall = { seconds = 1, nanoseconds = 5 }
random = "allow" => Ok(version: Two, slots: 16, clocks_wall: Fixed(seconds: 1, nanoseconds: 5), random: Allow)
'' = 1 => Err(BadKey(""))
"a\nb" = 1 => Err(BadKey("a\nb"))"#;

/// The keys that stand alone.
pub const TOP: &str = r#"version = 1 => Ok()
version = 2 => Ok(version: Two)
version = 0 => Err(BadValue("version"))
version = 3 => Err(BadValue("version"))
version = 9223372036854775807 => Err(BadValue("version"))
version = -1 => Err(BadValue("version"))
version = '1' => Err(BadValue("version"))
version = 1.0 => Err(BadValue("version"))
deny = 'trap' => Ok()
deny = 'error' => Ok(deny: Error)
deny = 'Trap' => Err(BadValue("deny"))
deny = '' => Err(BadValue("deny"))
deny = true => Err(BadValue("deny"))
transfer-limit = 65535 => Err(BadValue("transfer-limit"))
transfer-limit = 65536 => Ok(transfer_limit: 65536)
transfer-limit = 16777215 => Ok(transfer_limit: 16777215)
transfer-limit = 16777216 => Ok()
transfer-limit = 67108864 => Ok(transfer_limit: 67108864)
transfer-limit = 67108865 => Err(OverLimit("transfer-limit", 67108865))
transfer-limit = -1 => Err(BadValue("transfer-limit"))
transfer-limit = '65536' => Err(BadValue("transfer-limit"))
slots = -1 => Err(BadValue("slots"))
slots = 0 => Err(BadValue("slots"))
slots = 1 => Ok(slots: 1)
slots = 255 => Ok(slots: 255)
slots = 256 => Ok()
slots = 4096 => Ok(slots: 4096)
slots = 4097 => Err(OverLimit("slots", 4097))
slots = 9223372036854775807 => Err(OverLimit("slots", 9223372036854775807))
slots = 5.0 => Err(BadValue("slots"))
slots = true => Err(BadValue("slots"))
random = 'allow' => Ok(random: Allow)
random = 'deny' => Ok()
random = 'rules' => Err(BadValue("random"))
random = 1 => Err(BadValue("random"))
exit = 'allow' => Ok(exit: Allow)
exit = 'deny' => Ok()
exit = 'ignore' => Err(BadValue("exit"))
exit = [] => Err(BadValue("exit"))
sockets = 'allow' => Ok(sockets: Allow)
sockets = 'deny' => Ok()
sockets = 'rules' => Ok(sockets: Rules)
sockets = 'rule' => Err(BadValue("sockets"))
sockets = {} => Err(BadValue("sockets"))"#;

/// Unknown keys, and keys that should be tables.
pub const UNKNOWN: &str = r#"x = 1
b = 2 => Err(BadKey("b"))
a = 1
Z = 1 => Err(BadKey("Z"))
x = 1
version = 3 => Err(BadKey("x"))
slots = 0
env.pas = 1 => Err(BadValue("slots"))
env.pas = true => Err(BadKey("env.pas"))
env = { b = 1, a = 1 } => Err(BadKey("env.a"))
env = { pass = 1, other = 1 } => Err(BadKey("env.other"))
stdio.in = 'allow' => Err(BadKey("stdio.in"))
clocks.other = 1 => Err(BadKey("clocks.other"))
fs.other = 1 => Err(BadKey("fs.other"))
fs.host = 1
fs.other = 1 => Err(BadKey("fs.other"))
env = 1 => Err(BadValue("env"))
env = 1
slots = 0 => Err(BadValue("slots"))
env = [] => Err(BadValue("env"))
stdio = [] => Err(BadValue("stdio"))
clocks = 'deny' => Err(BadValue("clocks"))
fs = 0 => Err(BadValue("fs"))
[[fs]]
host = 'all' => Err(BadValue("fs"))"#;

/// Of two keys at fault, written in the other order, the one that is due first.
pub const ORDER: &str = r#"deny = 1
version = 3 => Err(BadValue("version"))
transfer-limit = 0
deny = 1 => Err(BadValue("deny"))
slots = 0
transfer-limit = 0 => Err(BadValue("transfer-limit"))
env.pass = 1
slots = 0 => Err(BadValue("slots"))
env.allow = 1
env.pass = 1 => Err(BadValue("env.pass"))
env.set = 1
env.allow = 1 => Err(BadValue("env.allow"))
env.arguments = 1
env.set = 1 => Err(BadValue("env.set"))
env.cwd = 1
env.arguments = 1 => Err(BadValue("env.arguments"))
stdio.stdin = 1
env.cwd = 1 => Err(BadValue("env.cwd"))
stdio.stdout = 1
stdio.stdin = 1 => Err(BadValue("stdio.stdin"))
stdio.stderr = 1
stdio.stdout = 1 => Err(BadValue("stdio.stdout"))
clocks.wall = 1
stdio.stderr = 1 => Err(BadValue("stdio.stderr"))
clocks.monotonic = -1
clocks.wall = 1 => Err(BadValue("clocks.wall"))
random = 1
clocks.monotonic = -1 => Err(BadValue("clocks.monotonic"))
exit = 1
random = 1 => Err(BadValue("random"))
sockets = 1
exit = 1 => Err(BadValue("exit"))
fs.host = 1
sockets = 1 => Err(BadValue("sockets"))
fs.pass = 1
fs.host = 1 => Err(BadValue("fs.host"))
fs.tree = 1
fs.pass = 1 => Err(BadValue("fs.pass"))
fs.scratch = 1
fs.tree = 1 => Err(BadValue("fs.tree"))
net = 1
fs.scratch = 1 => Err(BadValue("fs.scratch"))
fs.host = 'all'
fs.pass = 1
fs.tree = 1 => Err(BadValue("fs.pass"))
sockets = 'rules'
net = { bind = 1, connect = 1 } => Err(BadValue("net.connect"))
sockets = 'rules'
net = { names = 1, bind = 1 } => Err(BadValue("net.bind"))"#;

/// `env`.
pub const ENV: &str = r#"env = {} => Ok()
env.pass = true => Ok(env_pass: true)
env.pass = false => Ok()
env.pass = 'true' => Err(BadValue("env.pass"))
env.allow = [] => Ok()
env.allow = ['A', 'A'] => Ok(env_allow: ["A", "A"])
env.allow = ['A', ''] => Err(BadValue("env.allow[1]"))
env.allow = ['A=B'] => Err(BadValue("env.allow[0]"))
env.allow = ["A\u0000"] => Err(BadValue("env.allow[0]"))
env.allow = [1] => Err(BadValue("env.allow[0]"))
env.allow = 'A' => Err(BadValue("env.allow"))
env.allow = {} => Err(BadValue("env.allow"))
env = { pass = true, allow = ['A'], set = { A = 'x' } } => Ok(env_pass: true, env_allow: ["A"], env_set: [name: "A", value: "x"])
env.set = {} => Ok()
env.set = { B = '2', A = '' } => Ok(env_set: [name: "A", value: "", name: "B", value: "2"])
env.set = { A = 'x=y' } => Ok(env_set: [name: "A", value: "x=y"])
env.set = { '' = '1' } => Err(BadValue("env.set."))
env.set = { 'A=' = '1' } => Err(BadValue("env.set.A="))
env.set = { "A\u0000" = '1' } => Err(BadValue("env.set.A\0"))
env.set = { A = 1 } => Err(BadValue("env.set.A"))
env.set = { A = "x\u0000" } => Err(BadValue("env.set.A"))
env.set = { B = 1, A = 1 } => Err(BadValue("env.set.A"))
env.set = { 'B=' = 1, A = 1 } => Err(BadValue("env.set.A"))
env.set = [] => Err(BadValue("env.set"))
env.arguments = true => Ok(env_arguments: Allow)
env.arguments = false => Ok()
env.arguments = [] => Ok(env_arguments: Given([]))
env.arguments = ['p', '-v', ''] => Ok(env_arguments: Given(["p", "-v", ""]))
env.arguments = ['p', "\u0000"] => Err(BadValue("env.arguments[1]"))
env.arguments = [1] => Err(BadValue("env.arguments[0]"))
env.arguments = 'p' => Err(BadValue("env.arguments"))
env.arguments = {} => Err(BadValue("env.arguments"))
env.cwd = true => Ok(env_cwd: Allow)
env.cwd = false => Ok()
env.cwd = '' => Ok(env_cwd: Given(""))
env.cwd = '/a' => Ok(env_cwd: Given("/a"))
env.cwd = "\u0000" => Err(BadValue("env.cwd"))
env.cwd = 1 => Err(BadValue("env.cwd"))
env.cwd = [] => Err(BadValue("env.cwd"))"#;

/// `stdio` and `clocks`.
pub const CLOCKS: &str = r#"stdio = {} => Ok()
stdio.stdin = 'allow' => Ok(stdio_stdin: Allow)
stdio.stdin = 'ignore' => Ok(stdio_stdin: Ignore)
stdio.stdin = 'deny' => Ok()
stdio.stdin = 'yes' => Err(BadValue("stdio.stdin"))
stdio.stdin = true => Err(BadValue("stdio.stdin"))
stdio.stdout = 'allow' => Ok(stdio_stdout: Allow)
stdio.stdout = 'ignore' => Ok(stdio_stdout: Ignore)
stdio.stdout = 'deny' => Ok()
stdio.stdout = 'all' => Err(BadValue("stdio.stdout"))
stdio.stdout = 0 => Err(BadValue("stdio.stdout"))
stdio.stderr = 'allow' => Ok(stdio_stderr: Allow)
stdio.stderr = 'ignore' => Ok(stdio_stderr: Ignore)
stdio.stderr = 'deny' => Ok()
stdio.stderr = '' => Err(BadValue("stdio.stderr"))
stdio.stderr = [] => Err(BadValue("stdio.stderr"))
clocks = {} => Ok()
clocks.wall = 'allow' => Ok(clocks_wall: Allow)
clocks.wall = 'deny' => Ok()
clocks.wall = 'ignore' => Err(BadValue("clocks.wall"))
clocks.wall = 0 => Err(BadValue("clocks.wall"))
clocks.wall = { seconds = 0, nanoseconds = 0 } => Ok(clocks_wall: Fixed(seconds: 0, nanoseconds: 0))
clocks.wall = { seconds = 9223372036854775807, nanoseconds = 999999999 } => Ok(clocks_wall: Fixed(seconds: 9223372036854775807, nanoseconds: 999999999))
clocks.wall = { seconds = -1, nanoseconds = 0 } => Err(BadValue("clocks.wall.seconds"))
clocks.wall = { seconds = 0.0, nanoseconds = 0 } => Err(BadValue("clocks.wall.seconds"))
clocks.wall = { seconds = 0, nanoseconds = -1 } => Err(BadValue("clocks.wall.nanoseconds"))
clocks.wall = { seconds = 0, nanoseconds = '0' } => Err(BadValue("clocks.wall.nanoseconds"))
clocks.wall = { seconds = 0, nanoseconds = 1000000000 } => Err(OverLimit("clocks.wall.nanoseconds", 1000000000))
clocks.wall = { seconds = 0 } => Err(BadValue("clocks.wall.nanoseconds"))
clocks.wall = { nanoseconds = -1 } => Err(BadValue("clocks.wall.seconds"))
clocks.wall = {} => Err(BadValue("clocks.wall.seconds"))
clocks.wall = { nanos = 0 } => Err(BadKey("clocks.wall.nanos"))
clocks.monotonic = 'allow' => Ok(clocks_monotonic: Allow)
clocks.monotonic = 'deny' => Ok()
clocks.monotonic = 'ignore' => Err(BadValue("clocks.monotonic"))
clocks.monotonic = 0 => Ok(clocks_monotonic: Fixed(0))
clocks.monotonic = 9223372036854775807 => Ok(clocks_monotonic: Fixed(9223372036854775807))
clocks.monotonic = -1 => Err(BadValue("clocks.monotonic"))
clocks.monotonic = 0.5 => Err(BadValue("clocks.monotonic"))
clocks.monotonic = '0' => Err(BadValue("clocks.monotonic"))
clocks.monotonic = {} => Err(BadValue("clocks.monotonic"))"#;

/// `fs` with its passed folders and its scratch folder.
pub const FOLDERS: &str = r#"fs = {} => Ok()
fs.host = 'deny' => Ok()
fs.host = 'all' => Ok(fs_host: All)
fs.host = 'none' => Err(BadValue("fs.host"))
fs.host = true => Err(BadValue("fs.host"))
fs.host = 'deny'
fs.pass = [{ host = 'a', as = 'b' }] => Ok(fs_pass: [host: "a", shown: "b"])
fs.host = 'all'
fs.pass = [] => Ok(fs_host: All)
fs.host = 'all'
fs.pass = {} => Err(BadValue("fs.pass"))
fs.host = 'all'
fs.pass = [1] => Err(BadValue("fs.pass"))
fs.host = 'all'
fs.pass = [{ host = 'a', as = 'b' }] => Err(BadValue("fs.pass"))
fs.host = 'all'
fs.tree = [{ name = 't' }] => Ok(fs_host: All, fs_tree: [name: "t", content: Embedded(files: [], folders: [], links: [])])
fs.pass = [{ host = 'a', as = 'b' }, { host = 'a', as = 'c' }] => Ok(fs_pass: [host: "a", shown: "b", host: "a", shown: "c"])
fs.pass = [{ host = 'a', as = 'b' }, { host = 'c', as = 'b' }] => Err(BadValue("fs.pass[1].as"))
fs.pass = [{ host = '', as = '' }] => Ok(fs_pass: [host: "", shown: ""])
fs.pass = [{ host = "/\u0000", as = 'a/b' }] => Ok(fs_pass: [host: "/\0", shown: "a/b"])
fs.pass = [{ as = 5 }] => Err(BadValue("fs.pass[0].host"))
fs.pass = [{ host = 1, as = 1 }] => Err(BadValue("fs.pass[0].host"))
fs.pass = [{ host = 'a' }] => Err(BadValue("fs.pass[0].as"))
fs.pass = [{ host = 'a', as = 1 }] => Err(BadValue("fs.pass[0].as"))
fs.pass = [{ hots = 'a' }] => Err(BadKey("fs.pass[0].hots"))
fs.pass = [{ host = 'a', as = 'b' }, { as = 'b', c = 1 }] => Err(BadKey("fs.pass[1].c"))
fs.pass = [1] => Err(BadValue("fs.pass[0]"))
fs.pass = {} => Err(BadValue("fs.pass"))
fs.scratch = { name = 's', blocks = 1, files = 1 } => Ok(fs_scratch: Some(name: "s", blocks: 1, files: 1))
fs.scratch = { name = '', blocks = 8192, files = 256 } => Ok(fs_scratch: Some(name: "", blocks: 8192, files: 256))
fs.scratch = { name = 's', blocks = 8193, files = 1 } => Err(OverLimit("fs.scratch.blocks", 8193))
fs.scratch = { name = 's', blocks = 0, files = 1 } => Err(BadValue("fs.scratch.blocks"))
fs.scratch = { name = 's', blocks = '1', files = 1 } => Err(BadValue("fs.scratch.blocks"))
fs.scratch = { name = 's', blocks = 1, files = 257 } => Err(OverLimit("fs.scratch.files", 257))
fs.scratch = { name = 's', blocks = 1, files = 0 } => Err(BadValue("fs.scratch.files"))
fs.scratch = { name = 's', blocks = 1, files = true } => Err(BadValue("fs.scratch.files"))
fs.scratch = { name = 's', files = 0 } => Err(BadValue("fs.scratch.blocks"))
fs.scratch = { name = 's', blocks = 1 } => Err(BadValue("fs.scratch.files"))
fs.scratch = { blocks = 0, files = 1 } => Err(BadValue("fs.scratch.name"))
fs.scratch = { name = 1, blocks = 0, files = 1 } => Err(BadValue("fs.scratch.name"))
fs.scratch = { size = 1 } => Err(BadKey("fs.scratch.size"))
fs.scratch = {} => Err(BadValue("fs.scratch.name"))
fs.scratch = 1 => Err(BadValue("fs.scratch"))
fs.scratch = [] => Err(BadValue("fs.scratch"))
fs.tree = [{ name = 's' }]
fs.scratch = { name = 's', blocks = 1, files = 1 } => Err(BadValue("fs.scratch.name"))
fs.pass = [{ host = 'a', as = 's' }]
fs.scratch = { name = 's', blocks = 1, files = 1 } => Err(BadValue("fs.scratch.name"))
fs.pass = [{ host = 's', as = 'a' }]
fs.scratch = { name = 's', blocks = 1, files = 1 } => Ok(fs_pass: [host: "s", shown: "a"], fs_scratch: Some(name: "s", blocks: 1, files: 1))"#;

/// Trees, and the files and folders in them.
pub const TREES: &str = r#"fs.tree = [] => Ok()
fs.tree = {} => Err(BadValue("fs.tree"))
fs.tree = [1] => Err(BadValue("fs.tree[0]"))
fs.tree = [{}] => Err(BadValue("fs.tree[0].name"))
fs.tree = [{ name = 't' }] => Ok(fs_tree: [name: "t", content: Embedded(files: [], folders: [], links: [])])
fs.tree = [{ name = '' }] => Ok(fs_tree: [name: "", content: Embedded(files: [], folders: [], links: [])])
fs.tree = [{ name = 'a/b' }] => Ok(fs_tree: [name: "a/b", content: Embedded(files: [], folders: [], links: [])])
fs.tree = [{ name = 1, mount = 1 }] => Err(BadValue("fs.tree[0].name"))
fs.tree = [{ name = 't' }, { name = 't' }] => Err(BadValue("fs.tree[1].name"))
fs.tree = [{ name = 'b' }]
fs.pass = [{ host = 'a', as = 'b' }] => Err(BadValue("fs.tree[0].name"))
fs.tree = [{ name = 'a' }]
fs.pass = [{ host = 'a', as = 'b' }] => Ok(fs_pass: [host: "a", shown: "b"], fs_tree: [name: "a", content: Embedded(files: [], folders: [], links: [])])
fs.tree = [{ name = 1, other = 1 }] => Err(BadKey("fs.tree[0].other"))
fs.tree = [{ name = 't', mount = '' }] => Ok(fs_tree: [name: "t", content: Mount("")])
fs.tree = [{ name = 't', mount = 1 }] => Err(BadValue("fs.tree[0].mount"))
fs.tree = [{ name = 't', mount = 1, files = 1 }] => Err(BadValue("fs.tree[0].mount"))
fs.tree = [{ name = 't', mount = 'm', files = {} }] => Err(BadValue("fs.tree[0].files"))
fs.tree = [{ name = 't', mount = 'm', folders = [] }] => Err(BadValue("fs.tree[0].folders"))
fs.tree = [{ name = 't', mount = 'm', files = {}, folders = [] }] => Err(BadValue("fs.tree[0].files"))
fs.tree = [{ name = 't', files = {}, folders = [] }] => Ok(fs_tree: [name: "t", content: Embedded(files: [], folders: [], links: [])])
fs.tree = [{ name = 't', files = [] }] => Err(BadValue("fs.tree[0].files"))
fs.tree = [{ name = 't', files = 1, folders = 1 }] => Err(BadValue("fs.tree[0].files"))
fs.tree = [{ name = 't', folders = {} }] => Err(BadValue("fs.tree[0].folders"))"#;

/// What a file holds, and where it stands.
pub const FILES: &str =
    r#"fs.tree = [{ name = 't', files = { a = { text = 'x' }, b = { hex = '0aFF' }, c = { file = 'f' } } }] => Ok(fs_tree: [name: "t", content: Embedded(files: [path: "a", content: Bytes([120]), path: "b", content: Bytes([10, 255]), path: "c", content: File("f")], folders: [], links: [])])
fs.tree = [{ name = 't', files = { a = { text = 'é' } } }] => Ok(fs_tree: [name: "t", content: Embedded(files: [path: "a", content: Bytes([195, 169])], folders: [], links: [])])
fs.tree = [{ name = 't', files = { a = { text = '' }, b = { hex = '' }, c = { file = '' } } }] => Ok(fs_tree: [name: "t", content: Embedded(files: [path: "a", content: Bytes([]), path: "b", content: Bytes([]), path: "c", content: File("")], folders: [], links: [])])
fs.tree = [{ name = 't', files = { b = { hex = 'aAfF09' }, a = { text = '' } } }] => Ok(fs_tree: [name: "t", content: Embedded(files: [path: "a", content: Bytes([]), path: "b", content: Bytes([170, 255, 9])], folders: [], links: [])])
fs.tree = [{ name = 't', files = { 'a/../b' = { text = '' } } }] => Err(BadName("fs.tree[0].files.a/../b"))
fs.tree = [{ name = 't', files = { 'a//b' = 1 } }] => Err(BadName("fs.tree[0].files.a//b"))
fs.tree = [{ name = 't', files = { '/a' = 1 } }] => Err(BadName("fs.tree[0].files./a"))
fs.tree = [{ name = 't', files = { 'a/' = 1 } }] => Err(BadName("fs.tree[0].files.a/"))
fs.tree = [{ name = 't', files = { 'a/.' = 1 } }] => Err(BadName("fs.tree[0].files.a/."))
fs.tree = [{ name = 't', files = { '' = 1 } }] => Err(BadName("fs.tree[0].files."))
fs.tree = [{ name = 't', files = { '.' = 1 } }] => Err(BadName("fs.tree[0].files.."))
fs.tree = [{ name = 't', files = { '..' = 1 } }] => Err(BadName("fs.tree[0].files..."))
fs.tree = [{ name = 't', files = { '...' = { text = '' } } }] => Ok(fs_tree: [name: "t", content: Embedded(files: [path: "...", content: Bytes([])], folders: [], links: [])])
fs.tree = [{ name = 't', files = { "a\u0000" = 1 } }] => Err(BadName("fs.tree[0].files.a\0"))
fs.tree = [{ name = 't', files = { a = 1 } }] => Err(BadValue("fs.tree[0].files.a"))
fs.tree = [{ name = 't', files = { a = { foo = 1 } } }] => Err(BadKey("fs.tree[0].files.a.foo"))
fs.tree = [{ name = 't', files = { a = { text = '', hex = '', foo = 1 } } }] => Err(BadKey("fs.tree[0].files.a.foo"))
fs.tree = [{ name = 't', files = { a = {} } }] => Err(BadValue("fs.tree[0].files.a"))
fs.tree = [{ name = 't', files = { a = { text = 1, hex = 1 } } }] => Err(BadValue("fs.tree[0].files.a"))
fs.tree = [{ name = 't', files = { a = { hex = '', file = '' } } }] => Err(BadValue("fs.tree[0].files.a"))
fs.tree = [{ name = 't', files = { a = { text = '', file = '' } } }] => Err(BadValue("fs.tree[0].files.a"))
fs.tree = [{ name = 't', files = { a = { text = '', hex = '', file = '' } } }] => Err(BadValue("fs.tree[0].files.a"))
fs.tree = [{ name = 't', files = { a = { text = 1 } } }] => Err(BadValue("fs.tree[0].files.a.text"))
fs.tree = [{ name = 't', files = { a = { hex = 1 } } }] => Err(BadValue("fs.tree[0].files.a.hex"))
fs.tree = [{ name = 't', files = { a = { hex = '0' } } }] => Err(BadValue("fs.tree[0].files.a.hex"))
fs.tree = [{ name = 't', files = { a = { hex = '0g' } } }] => Err(BadValue("fs.tree[0].files.a.hex"))
fs.tree = [{ name = 't', files = { a = { hex = '0 ' } } }] => Err(BadValue("fs.tree[0].files.a.hex"))
fs.tree = [{ name = 't', files = { a = { file = 1 } } }] => Err(BadValue("fs.tree[0].files.a.file"))
fs.tree = [{ name = 't', files = { b = 1, a = 1 } }] => Err(BadValue("fs.tree[0].files.a"))
fs.tree = [{ name = 't', files = { 'a/f' = 1, 'a-b' = 1 } }] => Err(BadValue("fs.tree[0].files.a-b"))
fs.tree = [{ name = 't', files = { 'a-b' = { text = '' }, 'a/f' = { text = '' } } }] => Ok(fs_tree: [name: "t", content: Embedded(files: [path: "a-b", content: Bytes([]), path: "a/f", content: Bytes([])], folders: [], links: [])])
fs.tree = [{ name = 't', files = { a = { text = '' }, 'a/b' = { text = '' } } }] => Err(BadValue("fs.tree[0].files.a/b"))
fs.tree = [{ name = 't', files = { a = { text = '' }, 'a-b' = { text = '' }, 'a/b' = { text = '' } } }] => Err(BadValue("fs.tree[0].files.a/b"))
fs.tree = [{ name = 't', files = { a = { text = '' }, 'a/b' = { hex = '0' } } }] => Err(BadValue("fs.tree[0].files.a/b.hex"))"#;

/// Folders, alone and beside files.
pub const PLACES: &str =
    r#"fs.tree = [{ name = 't', folders = ['a', 'a', 'a/b'] }] => Ok(fs_tree: [name: "t", content: Embedded(files: [], folders: ["a", "a", "a/b"], links: [])])
fs.tree = [{ name = 't', folders = ['a/b', 'a'] }] => Ok(fs_tree: [name: "t", content: Embedded(files: [], folders: ["a/b", "a"], links: [])])
fs.tree = [{ name = 't', folders = ['a', '/b'] }] => Err(BadName("fs.tree[0].folders[1]"))
fs.tree = [{ name = 't', folders = [''] }] => Err(BadName("fs.tree[0].folders[0]"))
fs.tree = [{ name = 't', folders = ['a/..'] }] => Err(BadName("fs.tree[0].folders[0]"))
fs.tree = [{ name = 't', folders = ["\u0000"] }] => Err(BadName("fs.tree[0].folders[0]"))
fs.tree = [{ name = 't', folders = ['a', 1] }] => Err(BadValue("fs.tree[0].folders[1]"))
fs.tree = [{ name = 't', files = { 'a/f' = { text = '' } }, folders = ['a'] }] => Ok(fs_tree: [name: "t", content: Embedded(files: [path: "a/f", content: Bytes([])], folders: ["a"], links: [])])
fs.tree = [{ name = 't', files = { a = { text = '' } }, folders = ['b', 'a'] }] => Err(BadValue("fs.tree[0].folders[1]"))
fs.tree = [{ name = 't', files = { a = { text = '' } }, folders = ['a/b'] }] => Err(BadValue("fs.tree[0].folders[0]"))
fs.tree = [{ name = 't', files = { a = { text = '' } }, folders = ['a-b', 'ab'] }] => Ok(fs_tree: [name: "t", content: Embedded(files: [path: "a", content: Bytes([])], folders: ["a-b", "ab"], links: [])])"#;

/// Symbolic links, which the second version has.
pub const LINKS: &str = r#"version = 2
fs.tree = [{ name = 't', links = { l = 'a/f' } }] => Ok(version: Two, fs_tree: [name: "t", content: Embedded(files: [], folders: [], links: [path: "l", target: "a/f"])])
fs.tree = [{ name = 't', links = { l = 'x' } }]
version = 2 => Ok(version: Two, fs_tree: [name: "t", content: Embedded(files: [], folders: [], links: [path: "l", target: "x"])])
fs.tree = [{ name = 't', links = {} }] => Err(BadKey("fs.tree[0].links"))
version = 1
fs.tree = [{ name = 't', links = {} }] => Err(BadKey("fs.tree[0].links"))
version = 2
fs.tree = [{ name = 't', links = {} }] => Ok(version: Two, fs_tree: [name: "t", content: Embedded(files: [], folders: [], links: [])])
version = 2
fs.tree = [{ name = 't', links = [] }] => Err(BadValue("fs.tree[0].links"))
version = 2
fs.tree = [{ name = 't', mount = 'm', links = {} }] => Err(BadValue("fs.tree[0].links"))
version = 2
fs.tree = [{ name = 't', mount = 'm', folders = [], links = {} }] => Err(BadValue("fs.tree[0].folders"))
version = 2
fs.tree = [{ name = 't', folders = 1, links = 1 }] => Err(BadValue("fs.tree[0].folders"))
version = 2
fs.tree = [{ name = 't', links = { l = 'x' }, other = 1 }] => Err(BadKey("fs.tree[0].other"))
version = 2
fs.tree = [{ name = 't', links = { l = 'x', k = '/' } }] => Ok(version: Two, fs_tree: [name: "t", content: Embedded(files: [], folders: [], links: [path: "k", target: "/", path: "l", target: "x"])])
version = 2
fs.tree = [{ name = 't', links = { l = '' } }] => Err(BadValue("fs.tree[0].links.l"))
version = 2
fs.tree = [{ name = 't', links = { l = "\u0000" } }] => Err(BadValue("fs.tree[0].links.l"))
version = 2
fs.tree = [{ name = 't', links = { l = 1 } }] => Err(BadValue("fs.tree[0].links.l"))
version = 2
fs.tree = [{ name = 't', links = { '/' = 1 } }] => Err(BadName("fs.tree[0].links./"))
version = 2
fs.tree = [{ name = 't', links = { 'a/..' = 'x' } }] => Err(BadName("fs.tree[0].links.a/.."))
version = 2
fs.tree = [{ name = 't', links = { l = 1, k = 1 } }] => Err(BadValue("fs.tree[0].links.k"))
version = 2
fs.tree = [{ name = 't', links = { 'a/f' = 1, 'a-b' = 1 } }] => Err(BadValue("fs.tree[0].links.a-b"))
version = 2
fs.tree = [{ name = 't', links = { a = 'x', 'a/b' = 'y' } }] => Err(BadValue("fs.tree[0].links.a/b"))
version = 2
fs.tree = [{ name = 't', links = { a = 'x', 'a-b' = 'y', 'a/b' = 'z' } }] => Err(BadValue("fs.tree[0].links.a/b"))
version = 2
fs.tree = [{ name = 't', folders = ['l'], links = { l = 'x' } }] => Err(BadValue("fs.tree[0].links.l"))
version = 2
fs.tree = [{ name = 't', folders = ['l/a'], links = { l = 'x' } }] => Err(BadValue("fs.tree[0].links.l"))
version = 2
fs.tree = [{ name = 't', folders = ['l'], links = { 'l/a' = 'x' } }] => Ok(version: Two, fs_tree: [name: "t", content: Embedded(files: [], folders: ["l"], links: [path: "l/a", target: "x"])])
version = 2
fs.tree = [{ name = 't', files = { l = { text = '' } }, links = { l = 'x' } }] => Err(BadValue("fs.tree[0].links.l"))
version = 2
fs.tree = [{ name = 't', files = { 'l/f' = { text = '' } }, links = { l = 'x' } }] => Err(BadValue("fs.tree[0].links.l"))
version = 2
fs.tree = [{ name = 't', files = { f = { text = '' } }, links = { 'f/l' = 'x' } }] => Err(BadValue("fs.tree[0].links.f/l"))
version = 2
fs.tree = [{ name = 't', files = { 'd/f' = { text = '' } }, links = { 'd/l' = 'x', 'd/m' = 'y' } }] => Ok(version: Two, fs_tree: [name: "t", content: Embedded(files: [path: "d/f", content: Bytes([])], folders: [], links: [path: "d/l", target: "x", path: "d/m", target: "y"])])"#;

/// `net` and the networks of its rules.
pub const NET: &str = r#"net = 1 => Err(BadValue("net"))
sockets = 'allow'
net = {} => Err(BadValue("net"))
sockets = 'deny'
net = { other = 1 } => Err(BadValue("net"))
net.connect = [{ network = 1 }]
fs.host = 1 => Err(BadValue("fs.host"))
sockets = 'rules'
net = 1 => Err(BadValue("net"))
sockets = 'rules'
net = {} => Ok(sockets: Rules)
sockets = 'rules'
net.other = 1 => Err(BadKey("net.other"))
sockets = 'rules'
net = { other = 1, connect = 1 } => Err(BadKey("net.other"))
sockets = 'rules'
net.names = true => Ok(sockets: Rules, net: connect: [], bind: [], names: true)
sockets = 'rules'
net.names = false => Ok(sockets: Rules)
sockets = 'rules'
net.names = 1 => Err(BadValue("net.names"))
sockets = 'rules'
net.connect = [] => Ok(sockets: Rules)
sockets = 'rules'
net.connect = {} => Err(BadValue("net.connect"))
sockets = 'rules'
net.connect = [1] => Err(BadValue("net.connect[0]"))
sockets = 'rules'
net.connect = [{}] => Err(BadValue("net.connect[0].network"))
sockets = 'rules'
net.connect = [{ ports = [] }] => Err(BadValue("net.connect[0].network"))
sockets = 'rules'
net.connect = [{ network = '0.0.0.0/0' }, { network = '' }] => Err(BadValue("net.connect[1].network"))
sockets = 'rules'
net.connect = [{ network = 1, x = 1 }] => Err(BadKey("net.connect[0].x"))
sockets = 'rules'
net.connect = [{ network = 1 }] => Err(BadValue("net.connect[0].network"))
sockets = 'rules'
net.bind = [] => Ok(sockets: Rules)
sockets = 'rules'
net.bind = 'any' => Err(BadValue("net.bind"))
sockets = 'rules'
net.bind = [{ network = '127.0.0.1/32' }] => Ok(sockets: Rules, net: connect: [], bind: [six: false, numbers: [127, 0, 0, 1], length: 32, ports: [from: 0, to: 65535]], names: false)
sockets = 'rules'
net.bind = [{ network = '127.0.0.1/33' }] => Err(BadValue("net.bind[0].network"))
sockets = 'rules'
net.connect = [{ network = '0.0.0.0/0' }] => Ok(sockets: Rules, net: connect: [six: false, numbers: [0, 0, 0, 0], length: 0, ports: [from: 0, to: 65535]], bind: [], names: false)
sockets = 'rules'
net.connect = [{ network = '255.255.255.255/32' }] => Ok(sockets: Rules, net: connect: [six: false, numbers: [255, 255, 255, 255], length: 32, ports: [from: 0, to: 65535]], bind: [], names: false)
sockets = 'rules'
net.connect = [{ network = '10.0.0.0/8' }] => Ok(sockets: Rules, net: connect: [six: false, numbers: [10, 0, 0, 0], length: 8, ports: [from: 0, to: 65535]], bind: [], names: false)
sockets = 'rules'
net.connect = [{ network = '10.0.0.0/33' }] => Err(BadValue("net.connect[0].network"))
sockets = 'rules'
net.connect = [{ network = '10.0.0.0/08' }] => Err(BadValue("net.connect[0].network"))
sockets = 'rules'
net.connect = [{ network = '10.0.0.0/00' }] => Err(BadValue("net.connect[0].network"))
sockets = 'rules'
net.connect = [{ network = '10.0.0.0/-1' }] => Err(BadValue("net.connect[0].network"))
sockets = 'rules'
net.connect = [{ network = '10.0.0.0/' }] => Err(BadValue("net.connect[0].network"))
sockets = 'rules'
net.connect = [{ network = '10.0.0.0/8 ' }] => Err(BadValue("net.connect[0].network"))
sockets = 'rules'
net.connect = [{ network = '10.0.0.0' }] => Err(BadValue("net.connect[0].network"))
sockets = 'rules'
net.connect = [{ network = '/8' }] => Err(BadValue("net.connect[0].network"))
sockets = 'rules'
net.connect = [{ network = '' }] => Err(BadValue("net.connect[0].network"))
sockets = 'rules'
net.connect = [{ network = '10.0.0.256/8' }] => Err(BadValue("net.connect[0].network"))
sockets = 'rules'
net.connect = [{ network = '10.0.0.00/8' }] => Err(BadValue("net.connect[0].network"))
sockets = 'rules'
net.connect = [{ network = '010.0.0.0/8' }] => Err(BadValue("net.connect[0].network"))
sockets = 'rules'
net.connect = [{ network = '10.0.0/8' }] => Err(BadValue("net.connect[0].network"))
sockets = 'rules'
net.connect = [{ network = '10.0.0.0.0/8' }] => Err(BadValue("net.connect[0].network"))
sockets = 'rules'
net.connect = [{ network = '10..0.0/8' }] => Err(BadValue("net.connect[0].network"))
sockets = 'rules'
net.connect = [{ network = '+1.0.0.0/8' }] => Err(BadValue("net.connect[0].network"))
sockets = 'rules'
net.connect = [{ network = 'a.0.0.0/8' }] => Err(BadValue("net.connect[0].network"))
sockets = 'rules'
net.connect = [{ network = '0:0:0:0:0:0:0:0/0' }] => Ok(sockets: Rules, net: connect: [six: true, numbers: [0, 0, 0, 0, 0, 0, 0, 0], length: 0, ports: [from: 0, to: 65535]], bind: [], names: false)
sockets = 'rules'
net.connect = [{ network = 'fe80:0:0:0:0:0:0:1/128' }] => Ok(sockets: Rules, net: connect: [six: true, numbers: [65152, 0, 0, 0, 0, 0, 0, 1], length: 128, ports: [from: 0, to: 65535]], bind: [], names: false)
sockets = 'rules'
net.connect = [{ network = 'ffff:0001:a:0b:00c:9:0:0/96' }] => Ok(sockets: Rules, net: connect: [six: true, numbers: [65535, 1, 10, 11, 12, 9, 0, 0], length: 96, ports: [from: 0, to: 65535]], bind: [], names: false)
sockets = 'rules'
net.connect = [{ network = 'fe80:0:0:0:0:0:0:1/129' }] => Err(BadValue("net.connect[0].network"))
sockets = 'rules'
net.connect = [{ network = 'fe80:0:0:0:0:0:0:1/064' }] => Err(BadValue("net.connect[0].network"))
sockets = 'rules'
net.connect = [{ network = 'fe80::1/128' }] => Err(BadValue("net.connect[0].network"))
sockets = 'rules'
net.connect = [{ network = 'FE80:0:0:0:0:0:0:1/8' }] => Err(BadValue("net.connect[0].network"))
sockets = 'rules'
net.connect = [{ network = '0:0:0:0:0:0:0/8' }] => Err(BadValue("net.connect[0].network"))
sockets = 'rules'
net.connect = [{ network = '0:0:0:0:0:0:0:0:0/8' }] => Err(BadValue("net.connect[0].network"))
sockets = 'rules'
net.connect = [{ network = '00000:0:0:0:0:0:0:0/8' }] => Err(BadValue("net.connect[0].network"))
sockets = 'rules'
net.connect = [{ network = 'g:0:0:0:0:0:0:0/8' }] => Err(BadValue("net.connect[0].network"))
sockets = 'rules'
net.connect = [{ network = '0:0:0:0:0:0:10.0.0.0/8' }] => Err(BadValue("net.connect[0].network"))
sockets = 'rules'
net.connect = [{ network = ':0:0:0:0:0:0:0/8' }] => Err(BadValue("net.connect[0].network"))"#;

/// The ports of a rule.
pub const PORTS: &str = r#"sockets = 'rules'
net.connect = [{ network = '10.0.0.0/8', ports = [443] }] => Ok(sockets: Rules, net: connect: [six: false, numbers: [10, 0, 0, 0], length: 8, ports: [from: 443, to: 443]], bind: [], names: false)
sockets = 'rules'
net.connect = [{ network = '10.0.0.0/33', ports = 1 }] => Err(BadValue("net.connect[0].network"))
sockets = 'rules'
net.connect = [{ network = '0.0.0.0/0', ports = [] }] => Err(BadValue("net.connect[0].ports"))
sockets = 'rules'
net.connect = [{ network = '0.0.0.0/0', ports = 1 }] => Err(BadValue("net.connect[0].ports"))
sockets = 'rules'
net.connect = [{ network = '0.0.0.0/0', ports = { from = 1, to = 2 } }] => Err(BadValue("net.connect[0].ports"))
sockets = 'rules'
net.connect = [{ network = '0.0.0.0/0', ports = [0, 65535] }] => Ok(sockets: Rules, net: connect: [six: false, numbers: [0, 0, 0, 0], length: 0, ports: [from: 0, to: 0, from: 65535, to: 65535]], bind: [], names: false)
sockets = 'rules'
net.connect = [{ network = '0.0.0.0/0', ports = [65536] }] => Err(OverLimit("net.connect[0].ports[0]", 65536))
sockets = 'rules'
net.connect = [{ network = '0.0.0.0/0', ports = [1, -1] }] => Err(BadValue("net.connect[0].ports[1]"))
sockets = 'rules'
net.connect = [{ network = '0.0.0.0/0', ports = ['443'] }] => Err(BadValue("net.connect[0].ports[0]"))
sockets = 'rules'
net.connect = [{ network = '0.0.0.0/0', ports = [443.0] }] => Err(BadValue("net.connect[0].ports[0]"))
sockets = 'rules'
net.connect = [{ network = '0.0.0.0/0', ports = [{ from = 1, to = 2 }, 7] }] => Ok(sockets: Rules, net: connect: [six: false, numbers: [0, 0, 0, 0], length: 0, ports: [from: 1, to: 2, from: 7, to: 7]], bind: [], names: false)
sockets = 'rules'
net.connect = [{ network = '0.0.0.0/0', ports = [{ from = 0, to = 65535 }] }] => Ok(sockets: Rules, net: connect: [six: false, numbers: [0, 0, 0, 0], length: 0, ports: [from: 0, to: 65535]], bind: [], names: false)
sockets = 'rules'
net.connect = [{ network = '0.0.0.0/0', ports = [{ from = 3, to = 3 }] }] => Ok(sockets: Rules, net: connect: [six: false, numbers: [0, 0, 0, 0], length: 0, ports: [from: 3, to: 3]], bind: [], names: false)
sockets = 'rules'
net.connect = [{ network = '0.0.0.0/0', ports = [{ from = 2, to = 1 }] }] => Err(BadValue("net.connect[0].ports[0]"))
sockets = 'rules'
net.connect = [{ network = '0.0.0.0/0', ports = [{ from = 65536, to = 1 }] }] => Err(OverLimit("net.connect[0].ports[0].from", 65536))
sockets = 'rules'
net.connect = [{ network = '0.0.0.0/0', ports = [{ from = 1, to = 65536 }] }] => Err(OverLimit("net.connect[0].ports[0].to", 65536))
sockets = 'rules'
net.connect = [{ network = '0.0.0.0/0', ports = [{ from = -1, to = 1 }] }] => Err(BadValue("net.connect[0].ports[0].from"))
sockets = 'rules'
net.connect = [{ network = '0.0.0.0/0', ports = [{ from = 1, to = -1 }] }] => Err(BadValue("net.connect[0].ports[0].to"))
sockets = 'rules'
net.connect = [{ network = '0.0.0.0/0', ports = [{ from = '1', to = 1 }] }] => Err(BadValue("net.connect[0].ports[0].from"))
sockets = 'rules'
net.connect = [{ network = '0.0.0.0/0', ports = [{ to = 1 }] }] => Err(BadValue("net.connect[0].ports[0].from"))
sockets = 'rules'
net.connect = [{ network = '0.0.0.0/0', ports = [{ from = 1 }] }] => Err(BadValue("net.connect[0].ports[0].to"))
sockets = 'rules'
net.connect = [{ network = '0.0.0.0/0', ports = [{ too = 1 }] }] => Err(BadKey("net.connect[0].ports[0].too"))"#;

/// Arrays and inline tables 80 deep in one another are read, and no deeper ones; a key has at most 80 parts.
pub const DEPTHS: &str = r#"slots = |80*[|80*] => Err(BadValue("slots"))
slots = |81*[|81*] => Err(NotToml)
env.pass = |79*{a=|{|80*} => Err(BadValue("env.pass"))
env.pass = |80*{a=|{}|80*} => Err(NotToml)
a|79*.a| = 1 => Err(BadKey("a"))
a|80*.a| = 1 => Err(NotToml)"#;

/// Longest lists pass; a longer one is refused with its length, before any item of it.
pub const LISTS: &str = r#"env.allow = [|1024*'A#',|] => Ok(env_allow: [|1023*"A#", |"A2023"])
env.allow = [|2000*'A#',|] => Err(OverLimit("env.allow", 2000))
env.allow = [|1025*#,|] => Err(OverLimit("env.allow", 1025))
env.arguments = [|1024*'-#',|] => Ok(env_arguments: Given([|1023*"-#", |"-2023"]))
env.arguments = [|1025*#,|] => Err(OverLimit("env.arguments", 1025))
env.set = {|1024*A# = 'x',|} => Ok(env_set: [|1023*name: "A#", value: "x", |name: "A2023", value: "x"])
env.set = {|1025*'=#' = 1,|} => Err(OverLimit("env.set", 1025))
fs.pass = [|64*{ host = 'a', as = 'b#' },|] => Ok(fs_pass: [|63*host: "a", shown: "b#", |host: "a", shown: "b1063"])
fs.pass = [|65*#,|] => Err(OverLimit("fs.pass", 65))
fs.tree = [|64*{ name = 't#' },|] => Ok(fs_tree: [|63*name: "t#", content: Embedded(files: [], folders: [], links: []), |name: "t1063", content: Embedded(files: [], folders: [], links: [])])
fs.tree = [|65*#,|] => Err(OverLimit("fs.tree", 65))
sockets = 'rules'
net.connect = [|256*{ network = '0.0.0.0/0', ports = [{ from = 0, to = # }] },|] => Ok(sockets: Rules, net: connect: [|255*six: false, numbers: [0, 0, 0, 0], length: 0, ports: [from: 0, to: #], |six: false, numbers: [0, 0, 0, 0], length: 0, ports: [from: 0, to: 1255]], bind: [], names: false)
sockets = 'rules'
net.connect = [|257*#,|] => Err(OverLimit("net.connect", 257))
sockets = 'rules'
net.bind = [|256*{ network = '0.0.0.0/0', ports = [{ from = 0, to = # }] },|] => Ok(sockets: Rules, net: connect: [], bind: [|255*six: false, numbers: [0, 0, 0, 0], length: 0, ports: [from: 0, to: #], |six: false, numbers: [0, 0, 0, 0], length: 0, ports: [from: 0, to: 1255]], names: false)
sockets = 'rules'
net.bind = [|257*#,|] => Err(OverLimit("net.bind", 257))
sockets = 'rules'
net.connect = [{ network = '0.0.0.0/0', ports = [|64*{ from = 0, to = # },|] }] => Ok(sockets: Rules, net: connect: [six: false, numbers: [0, 0, 0, 0], length: 0, ports: [|63*from: 0, to: #, |from: 0, to: 1063]], bind: [], names: false)
sockets = 'rules'
net.connect = [{ network = '0.0.0.0/0', ports = [|65*'#',|] }] => Err(OverLimit("net.connect[0].ports", 65))"#;

/// A name of a path has at most 255 bytes, a target of a link at most 4096.
pub const LENGTHS: &str =
    r#"fs.tree = [{ name = 't', folders = ['x/|255*a|'] }] => Ok(fs_tree: [name: "t", content: Embedded(files: [], folders: ["x/|255*a|"], links: [])])
fs.tree = [{ name = 't', folders = ['x/|256*a|'] }] => Err(BadName("fs.tree[0].folders[0]"))
fs.tree = [{ name = 't', folders = ['x/|128*é|'] }] => Err(BadName("fs.tree[0].folders[0]"))
version = 2
fs.tree = [{ name = 't', links = { l = "|4096*a|" } }] => Ok(version: Two, fs_tree: [name: "t", content: Embedded(files: [], folders: [], links: [path: "l", target: "|4096*a|"])])
version = 2
fs.tree = [{ name = 't', links = { l = "|4097*a|" } }] => Err(OverLimit("fs.tree[0].links.l", 4097))
version = 2
fs.tree = [{ name = 't', links = { l = "|2049*é|" } }] => Err(OverLimit("fs.tree[0].links.l", 4098))
version = 2
fs.tree = [{ name = 't', links = { l = "|4097*a|\u0000" } }] => Err(BadValue("fs.tree[0].links.l"))"#;
