//! The table of `fs` as one text (WASI 0.2). It stands apart since it is data alone.

/// The interfaces of `wasi:filesystem` (WASI 0.2.0), in the notation of `wasi_table`.
pub const TABLE: &str = "\
    wasi:filesystem/types;\
    use input-stream;\
    use output-stream;\
    use error;\
    use datetime;\
    type filesize u64;\
    type link-count u64;\
    enum descriptor-type unknown block-device character-device directory fifo symbolic-link regular-file socket;\
    flags descriptor-flags read write file-integrity-sync data-integrity-sync requested-write-sync mutate-directory;\
    record descriptor-stat,\
    type descriptor-type,\
    link-count link-count,\
    size filesize,\
    data-access-timestamp option datetime,\
    data-modification-timestamp option datetime,\
    status-change-timestamp option datetime;\
    flags path-flags symlink-follow;\
    flags open-flags create directory exclusive truncate;\
    variant new-timestamp,\
    no-change,\
    now,\
    timestamp datetime;\
    record directory-entry,\
    type descriptor-type,\
    name string;\
    enum advice normal sequential random will-need dont-need no-reuse;\
    record metadata-hash-value,\
    lower u64,\
    upper u64;\
    enum error-code access would-block already bad-descriptor busy deadlock quota exist file-too-large \
    illegal-byte-sequence in-progress interrupted invalid io is-directory loop too-many-links message-size name-too-long \
    no-device no-entry no-lock insufficient-memory insufficient-space not-directory not-empty not-recoverable unsupported \
    no-tty no-such-device overflow not-permitted pipe read-only invalid-seek text-file-busy cross-device;\
    resource descriptor,\
    read-via-stream filesize -> result own input-stream error-code,\
    write-via-stream filesize -> result own output-stream error-code,\
    append-via-stream -> result own output-stream error-code,\
    advise filesize filesize advice -> result _ error-code,\
    sync-data -> result _ error-code,\
    sync -> result _ error-code,\
    set-size filesize -> result _ error-code,\
    set-times new-timestamp new-timestamp -> result _ error-code,\
    get-flags -> result descriptor-flags error-code,\
    get-type -> result descriptor-type error-code,\
    read filesize filesize -> result tuple2 list u8 bool error-code,\
    write list u8 filesize -> result filesize error-code,\
    read-directory -> result own directory-entry-stream error-code,\
    create-directory-at string -> result _ error-code,\
    remove-directory-at string -> result _ error-code,\
    unlink-file-at string -> result _ error-code,\
    symlink-at string string -> result _ error-code,\
    stat -> result descriptor-stat error-code,\
    stat-at path-flags string -> result descriptor-stat error-code,\
    set-times-at path-flags string new-timestamp new-timestamp -> result _ error-code,\
    link-at path-flags string borrow descriptor string -> result _ error-code,\
    rename-at string borrow descriptor string -> result _ error-code,\
    open-at path-flags string open-flags descriptor-flags -> result own descriptor error-code,\
    readlink-at string -> result string error-code,\
    is-same-object borrow descriptor -> bool,\
    metadata-hash -> result metadata-hash-value error-code,\
    metadata-hash-at path-flags string -> result metadata-hash-value error-code;\
    resource directory-entry-stream,\
    read-directory-entry -> result option directory-entry error-code;\
    function filesystem-error-code borrow error -> option error-code.\
    \
    wasi:filesystem/preopens;\
    use descriptor;\
    function get-directories -> list tuple2 own descriptor string";
