//! The table of `net` as one text (WASI 0.2). It stands apart since it is data alone.

/// The interfaces of `wasi:sockets` (WASI 0.2.0), in the notation of `wasi_table`.
pub const TABLE: &str = "\
    wasi:sockets/network;\
    resource network;\
    enum error-code unknown access-denied not-supported invalid-argument out-of-memory timeout concurrency-conflict \
    not-in-progress would-block invalid-state new-socket-limit address-not-bindable address-in-use remote-unreachable \
    connection-refused connection-reset connection-aborted datagram-too-large name-unresolvable temporary-resolver-failure \
    permanent-resolver-failure;\
    enum ip-address-family ipv4 ipv6;\
    type ipv4-address tuple4 u8 u8 u8 u8;\
    type ipv6-address tuple8 u16 u16 u16 u16 u16 u16 u16 u16;\
    variant ip-address,\
    ipv4 ipv4-address,\
    ipv6 ipv6-address;\
    record ipv4-socket-address,\
    port u16,\
    address ipv4-address;\
    record ipv6-socket-address,\
    port u16,\
    flow-info u32,\
    address ipv6-address,\
    scope-id u32;\
    variant ip-socket-address,\
    ipv4 ipv4-socket-address,\
    ipv6 ipv6-socket-address.\
    \
    wasi:sockets/instance-network;\
    use network;\
    function instance-network -> own network.\
    \
    wasi:sockets/ip-name-lookup;\
    use pollable;\
    use network;\
    use error-code;\
    use ip-address;\
    function resolve-addresses borrow network string -> result own resolve-address-stream error-code;\
    resource resolve-address-stream,\
    resolve-next-address -> result option ip-address error-code,\
    subscribe -> own pollable.\
    \
    wasi:sockets/tcp;\
    use input-stream;\
    use output-stream;\
    use pollable;\
    use duration;\
    use network;\
    use error-code;\
    use ip-socket-address;\
    use ip-address-family;\
    enum shutdown-type receive send both;\
    resource tcp-socket,\
    start-bind borrow network ip-socket-address -> result _ error-code,\
    start-connect borrow network ip-socket-address -> result _ error-code,\
    finish-bind -> result _ error-code,\
    start-listen -> result _ error-code,\
    finish-listen -> result _ error-code,\
    shutdown shutdown-type -> result _ error-code,\
    finish-connect -> result tuple2 own input-stream own output-stream error-code,\
    accept -> result tuple3 own tcp-socket own input-stream own output-stream error-code,\
    local-address -> result ip-socket-address error-code,\
    remote-address -> result ip-socket-address error-code,\
    is-listening -> bool,\
    address-family -> ip-address-family,\
    set-listen-backlog-size u64 -> result _ error-code,\
    keep-alive-enabled -> result bool error-code,\
    set-keep-alive-enabled bool -> result _ error-code,\
    keep-alive-idle-time -> result duration error-code,\
    set-keep-alive-idle-time duration -> result _ error-code,\
    keep-alive-interval -> result duration error-code,\
    set-keep-alive-interval duration -> result _ error-code,\
    keep-alive-count -> result u32 error-code,\
    set-keep-alive-count u32 -> result _ error-code,\
    hop-limit -> result u8 error-code,\
    set-hop-limit u8 -> result _ error-code,\
    receive-buffer-size -> result u64 error-code,\
    set-receive-buffer-size u64 -> result _ error-code,\
    send-buffer-size -> result u64 error-code,\
    set-send-buffer-size u64 -> result _ error-code,\
    subscribe -> own pollable.\
    \
    wasi:sockets/tcp-create-socket;\
    use network;\
    use error-code;\
    use ip-address-family;\
    use tcp-socket;\
    function create-tcp-socket ip-address-family -> result own tcp-socket error-code.\
    \
    wasi:sockets/udp;\
    use pollable;\
    use network;\
    use error-code;\
    use ip-socket-address;\
    use ip-address-family;\
    record incoming-datagram,\
    data list u8,\
    remote-address ip-socket-address;\
    record outgoing-datagram,\
    data list u8,\
    remote-address option ip-socket-address;\
    resource udp-socket,\
    start-bind borrow network ip-socket-address -> result _ error-code,\
    finish-bind -> result _ error-code,\
    stream option ip-socket-address -> result tuple2 own incoming-datagram-stream own outgoing-datagram-stream error-code,\
    local-address -> result ip-socket-address error-code,\
    remote-address -> result ip-socket-address error-code,\
    address-family -> ip-address-family,\
    unicast-hop-limit -> result u8 error-code,\
    set-unicast-hop-limit u8 -> result _ error-code,\
    receive-buffer-size -> result u64 error-code,\
    set-receive-buffer-size u64 -> result _ error-code,\
    send-buffer-size -> result u64 error-code,\
    set-send-buffer-size u64 -> result _ error-code,\
    subscribe -> own pollable;\
    resource incoming-datagram-stream,\
    receive u64 -> result list incoming-datagram error-code,\
    subscribe -> own pollable;\
    resource outgoing-datagram-stream,\
    check-send -> result u64 error-code,\
    send list outgoing-datagram -> result u64 error-code,\
    subscribe -> own pollable.\
    \
    wasi:sockets/udp-create-socket;\
    use network;\
    use error-code;\
    use ip-address-family;\
    use udp-socket;\
    function create-udp-socket ip-address-family -> result own udp-socket error-code";
