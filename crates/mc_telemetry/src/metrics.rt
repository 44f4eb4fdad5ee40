//! The table of metrics. Where a metric means the same as one of Prometheus' exporter for
//! memcached, or of its client libraries, it has that one's name.

use CloseReason as R;
use Counted as C;
use Figure::{Both, Closed, Count};
use Kind::{Counter, Gauge};
use Samples::{Each, Hundredths, Numbers, One, Process, Refused, Slabs};
use mc_metrics::{Counted, Family, Figure, Kind, Labels, ProcessFigure, Samples, SlabFigure};
use mc_sockets::CloseReason;

/// The program's own version, as `--version` prints it.
pub const VERSION: Labels = &[(r#"{version="0.9.0"}"#, Figure::One)];

/// The settings, each behind the text of its label.
const SETTINGS: Labels = &[
    (r#"{threads=""#, Figure::Workers),
    (r#"",conn_limit=""#, Figure::Most),
    (r#"",idle_timeout_seconds=""#, Figure::IdleTimeout),
    (r#"",buffer_limit_bytes=""#, Figure::Buffers),
    (r#"",memory_limit_bytes=""#, Figure::Limit),
    (r#"",max_item_size_bytes=""#, Figure::Greatest),
    (r#"",shelves=""#, Figure::Shelves),
];

/// The commands, as the exporter counts them: of a `get` of several keys each key is one, `gat` is
/// one of `touch`, and `set` stands for each storage command but `cas`.
const COMMANDS: Labels = &[
    (r#"{command="get",status="hit"}"#, Count(C::GetHit)),
    (r#"{command="get",status="miss"}"#, Count(C::GetMiss)),
    (
        r#"{command="set",status="hit"}"#,
        Both(C::SetStored, C::SetNotStored),
    ),
    (r#"{command="cas",status="hit"}"#, Count(C::CasHit)),
    (r#"{command="cas",status="miss"}"#, Count(C::CasMiss)),
    (r#"{command="cas",status="badval"}"#, Count(C::CasBadval)),
    (r#"{command="delete",status="hit"}"#, Count(C::DeleteHit)),
    (r#"{command="delete",status="miss"}"#, Count(C::DeleteMiss)),
    (r#"{command="incr",status="hit"}"#, Count(C::IncrHit)),
    (r#"{command="incr",status="miss"}"#, Count(C::IncrMiss)),
    (r#"{command="decr",status="hit"}"#, Count(C::DecrHit)),
    (r#"{command="decr",status="miss"}"#, Count(C::DecrMiss)),
    (r#"{command="touch",status="hit"}"#, Count(C::TouchHit)),
    (r#"{command="touch",status="miss"}"#, Count(C::TouchMiss)),
    (r#"{command="flush",status="hit"}"#, Count(C::Flush)),
];

/// Why connections were closed.
const REASONS: Labels = &[
    (r#"{reason="client_closed"}"#, Closed(R::Ended as usize)),
    (
        r#"{reason="session_over"}"#,
        Closed(R::SessionOver as usize),
    ),
    (r#"{reason="idle"}"#, Closed(R::Idle as usize)),
    (r#"{reason="read_fault"}"#, Closed(R::ReadFault as usize)),
    (r#"{reason="write_fault"}"#, Closed(R::WriteFault as usize)),
    (r#"{reason="one_too_many"}"#, Closed(R::OneTooMany as usize)),
    (
        r#"{reason="no_descriptor"}"#,
        Closed(R::NoDescriptor as usize),
    ),
    (r#"{reason="no_memory"}"#, Closed(R::NoRoom as usize)),
    (
        r#"{reason="listener_failed"}"#,
        Closed(R::ListenerFailed as usize),
    ),
    (r#"{reason="hoarding"}"#, Closed(R::Hoarding as usize)),
    (
        r#"{reason="line_too_long"}"#,
        Closed(R::LineTooLong as usize),
    ),
    (r#"{reason="stopped"}"#, Closed(R::Stopped as usize)),
    (
        r#"{reason="out_of_memory"}"#,
        Closed(R::OutOfMemory as usize),
    ),
    (
        r#"{reason="other_protocol"}"#,
        Closed(R::OtherProtocol as usize),
    ),
];

/// The metrics of a page, in this order.
pub const METRICS: [Family; 44] = [
    (
        Gauge,
        "memcached_up",
        "1 while the server answers.",
        One(Figure::One),
        &[],
    ),
    (
        Gauge,
        "memcached_version",
        "The version of the program, as a label.",
        Each,
        VERSION,
    ),
    (
        Gauge,
        "mcserver_build_info",
        "The version of the program, as a label.",
        Each,
        VERSION,
    ),
    (
        Gauge,
        "memcached_uptime_seconds",
        "Seconds since the server began to serve.",
        One(Figure::Uptime),
        &[],
    ),
    (
        Counter,
        "memcached_commands_total",
        "Commands on keys, by command and result.",
        Each,
        COMMANDS,
    ),
    (
        Gauge,
        "memcached_current_connections",
        "Open client connections that count in -c: all but those that linger behind their last answer.",
        One(Figure::Connections),
        &[],
    ),
    (
        Counter,
        "memcached_connections_total",
        "Accepted client connections.",
        One(Figure::Accepted),
        &[],
    ),
    (
        Counter,
        "memcached_connections_rejected_total",
        "Connections closed because -c was reached.",
        One(Closed(R::OneTooMany as usize)),
        &[],
    ),
    (
        Gauge,
        "memcached_max_connections",
        "Limit of open client connections, -c.",
        One(Figure::Most),
        &[],
    ),
    (
        Gauge,
        "mcserver_lingering_connections",
        "Client connections that linger behind their last answer, beside those of -c.",
        One(Figure::Lingering),
        &[],
    ),
    (
        Gauge,
        "memcached_current_items",
        "Items in the store, with expired ones that are not freed yet.",
        One(Figure::Items),
        &[],
    ),
    (
        Counter,
        "memcached_items_total",
        "Items that commands stored.",
        One(Both(C::SetStored, C::CasHit)),
        &[],
    ),
    (
        Counter,
        "memcached_items_evicted_total",
        "Items removed to make room: always 0, since a full store refuses.",
        One(Figure::Zero),
        &[],
    ),
    (
        Counter,
        "memcached_items_reclaimed_total",
        "Expired or flushed items whose memory was given back without a command on their key.",
        One(Figure::Reclaimed),
        &[],
    ),
    (
        Gauge,
        "memcached_current_bytes",
        "Bytes of the chunks that hold items.",
        One(Figure::Bytes),
        &[],
    ),
    (
        Gauge,
        "memcached_limit_bytes",
        "Bytes of all pages that items may use, -m.",
        One(Figure::Limit),
        &[],
    ),
    (
        Gauge,
        "memcached_slab_chunk_size_bytes",
        "Bytes of a chunk of the class.",
        Slabs(SlabFigure::Size),
        &[],
    ),
    (
        Gauge,
        "memcached_slab_chunks_per_page",
        "Chunks of a page of the class.",
        Slabs(SlabFigure::ChunksAPage),
        &[],
    ),
    (
        Gauge,
        "memcached_slab_current_pages",
        "Pages of the class.",
        Slabs(SlabFigure::Pages),
        &[],
    ),
    (
        Gauge,
        "memcached_slab_current_chunks",
        "Chunks of the class.",
        Slabs(SlabFigure::Chunks),
        &[],
    ),
    (
        Gauge,
        "memcached_slab_chunks_used",
        "Chunks of the class that hold items.",
        Slabs(SlabFigure::Used),
        &[],
    ),
    (
        Gauge,
        "memcached_slab_chunks_free",
        "Chunks of the class that hold no item.",
        Slabs(SlabFigure::Free),
        &[],
    ),
    (
        Counter,
        "memcached_slab_items_outofmemory_total",
        "Commands refused for want of a chunk, by the class they needed; 0 if unknown.",
        Refused,
        &[],
    ),
    (
        Counter,
        "memcached_item_too_large_total",
        "Commands refused because the item is larger than -I allows.",
        One(Count(C::TooLarge)),
        &[],
    ),
    (
        Counter,
        "memcached_read_bytes_total",
        "Bytes received from clients.",
        One(Count(C::Received)),
        &[],
    ),
    (
        Counter,
        "memcached_written_bytes_total",
        "Bytes sent to clients.",
        One(Count(C::Sent)),
        &[],
    ),
    (
        Counter,
        "mcserver_refusals_total",
        "Commands refused for want of a chunk: the store is full.",
        One(Count(C::Refused)),
        &[],
    ),
    (
        Gauge,
        "mcserver_buffer_bytes",
        "Bytes of buffers that client connections hold and that --buffer-limit counts.",
        One(Figure::Held),
        &[],
    ),
    (
        Gauge,
        "mcserver_buffer_limit_bytes",
        "Limit of these bytes, --buffer-limit; connections wait from seven eighths of it on.",
        One(Figure::Buffers),
        &[],
    ),
    (
        Gauge,
        "mcserver_waiting_connections",
        "Client connections that wait for room in the buffers.",
        One(Figure::Waiting),
        &[],
    ),
    (
        Gauge,
        "mcserver_shelves",
        "Shelves of the store, --shelves.",
        One(Figure::Shelves),
        &[],
    ),
    (
        Gauge,
        "mcserver_table_homes",
        "Home buckets of all hash tables.",
        One(Figure::Homes),
        &[],
    ),
    (
        Counter,
        "mcserver_growths_total",
        "Times that a hash table doubled.",
        One(Figure::Growths),
        &[],
    ),
    (
        Gauge,
        "mcserver_growths_running",
        "Hash tables that are growing.",
        One(Figure::Running),
        &[],
    ),
    (
        Gauge,
        "mcserver_growth_entries_left",
        "Entries that growing hash tables have still to move.",
        One(Figure::Left),
        &[],
    ),
    (
        Gauge,
        "mcserver_stray_entries",
        "Hash table entries without a bucket near their home.",
        One(Figure::Strays),
        &[],
    ),
    (
        Counter,
        "mcserver_connections_closed_total",
        "Closed client connections, by reason.",
        Each,
        REASONS,
    ),
    (
        Gauge,
        "mcserver_settings_info",
        "The options of the server, as labels.",
        Numbers,
        SETTINGS,
    ),
    (
        Gauge,
        "process_start_time_seconds",
        "Start of the process in seconds since 1970.",
        Process(ProcessFigure::Started),
        &[],
    ),
    (
        Gauge,
        "process_max_fds",
        "Limit of open file descriptors of the process.",
        Process(ProcessFigure::MostFds),
        &[],
    ),
    (
        Gauge,
        "process_open_fds",
        "Open file descriptors of the process.",
        Process(ProcessFigure::OpenFds),
        &[],
    ),
    (
        Gauge,
        "process_resident_memory_bytes",
        "Bytes of the process in memory.",
        Process(ProcessFigure::Resident),
        &[],
    ),
    (
        Gauge,
        "process_virtual_memory_bytes",
        "Bytes of the address space of the process.",
        Process(ProcessFigure::VirtualSize),
        &[],
    ),
    (
        Counter,
        "process_cpu_seconds_total",
        "Seconds of CPU time that the process used.",
        Hundredths(ProcessFigure::Cpu),
        &[],
    ),
];
