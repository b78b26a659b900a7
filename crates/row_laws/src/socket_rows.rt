//! Rows of sockets that equal the reference host's.
ghost use Rattle.std.specs.Prelude.{List, codes};
ghost use Rattle.wit_types.specs.Plain.{Name, UnsignedType, OneByte, BoolType, EightBytes};
ghost use Rattle.row_runs.specs.Equals.{Fixed, RowEquals};
ghost use Rattle.row_laws.specs.Sockets.{value_or_error, done_or_error};
ghost use Rattle.row_runs.specs.Asks.{ask_listed, ask_row, ask_widths};

use host_port::Host;

/// `hop-limit` of a TCP socket: the host is asked, and its answer passes.
pub fn hop_limit_equals<H: Host>()
    ensures { (w : Fixed) (self_name : Name) (names : List Name) → RowEquals w H.step (ask_listed 23 (codes "[method]tcp-socket.hop-limit") self_name 10 (value_or_error (UnsignedType OneByte)) names) (ask_row w.layout 10) ask_widths }
{}

/// `keep-alive-enabled` of a TCP socket: the host is asked, and its answer passes.
pub fn keep_alive_enabled_equals<H: Host>()
    ensures { (w : Fixed) (self_name : Name) (names : List Name) → RowEquals w H.step (ask_listed 23 (codes "[method]tcp-socket.keep-alive-enabled") self_name 10 (value_or_error BoolType) names) (ask_row w.layout 10) ask_widths }
{}

/// `finish-listen` of a TCP socket: the host is asked, and its answer passes.
pub fn finish_listen_equals<H: Host>()
    ensures { (w : Fixed) (self_name : Name) (names : List Name) → RowEquals w H.step (ask_listed 23 (codes "[method]tcp-socket.finish-listen") self_name 10 done_or_error names) (ask_row w.layout 10) ask_widths }
{}

/// `receive-buffer-size` of a UDP socket: the host is asked, and its answer passes.
pub fn receive_buffer_size_equals<H: Host>()
    ensures { (w : Fixed) (self_name : Name) (names : List Name) → RowEquals w H.step (ask_listed 25 (codes "[method]udp-socket.receive-buffer-size") self_name 11 (value_or_error (UnsignedType EightBytes)) names) (ask_row w.layout 11) ask_widths }
{}
