//! Laws of what is counted, each the contract of a function that does nothing.
ghost use Rattle.std.specs.Prelude.{◌≡◌, codes};
ghost use Rattle.std.specs.Option.{option_and_then, option_map};
ghost use Rattle.mc_protocol.specs.declared.step.KeyStep.{KeyStep};
ghost use Rattle.mc_links.specs.declared.tally.Outcome.{Outcome};
ghost use Rattle.mc_metrics.specs.declared.counts.Counted.{Counted};
ghost use Rattle.mc_metrics.specs.declared.family.Samples.{Samples};
ghost use Rattle.mc_metrics.specs.declared.family.Samples.TheVariants.{One, Each, Numbers, Slabs};
ghost use Rattle.mc_metrics.specs.declared.family.Samples.TheVariants.{Process, Hundredths};
ghost use Rattle.mc_metrics.specs.declared.reading.Figure.{Figure};
ghost use Rattle.mc_metrics.specs.declared.reading.SlabFigure.{SlabFigure};
ghost use Rattle.mc_metrics.specs.declared.reading.ProcessFigure.{ProcessFigure};
ghost use Rattle.mc_sockets.specs.declared.connection.CloseReason.{CloseReason};
ghost use Rattle.mc_telemetry.specs.Counting.{counted_as};
ghost use Rattle.mc_telemetry.specs.Labels.{labels, labels_of, shown_as};
ghost use Rattle.mc_telemetry.specs.Names.{AreDistinct, closed, IsGauge, IsCounter};
ghost use Rattle.mc_telemetry.specs.Names.{IsCommand, IsReason, IsSetting, IsVersion, metrics};

/// States that the page shows a step under its own command and result. It does nothing.
///
/// The counter that a step with this outcome raises has the labels that the step is shown as, or
/// the step is shown as nothing.
pub fn steps_are_shown_as_they_came_out()
    ensures { (step : KeyStep) (out : Outcome) →
        option_and_then labels_of (counted_as step out) ≡ option_map labels (shown_as step out) }
{}

/// States that no metric's name stands twice, and no labels of a metric. It does nothing.
pub fn names_stand_once()
    ensures { AreDistinct metrics }
{}

/// States which gauge each of these names is. It does nothing.
///
/// The definition of the page reads these names in `METRICS`.
pub fn gauges_of_the_page()
    ensures up { IsGauge (codes "memcached_up") (One Figure.One) }
    ensures uptime { IsGauge (codes "memcached_uptime_seconds") (One Figure.Uptime) }
    ensures connections { IsGauge (codes "memcached_current_connections") (One Figure.Connections) }
    ensures most { IsGauge (codes "memcached_max_connections") (One Figure.Most) }
    ensures lingering { IsGauge (codes "mcserver_lingering_connections") (One Figure.Lingering) }
    ensures waiting { IsGauge (codes "mcserver_waiting_connections") (One Figure.Waiting) }
    ensures items { IsGauge (codes "memcached_current_items") (One Figure.Items) }
    ensures bytes { IsGauge (codes "memcached_current_bytes") (One Figure.Bytes) }
    ensures limit { IsGauge (codes "memcached_limit_bytes") (One Figure.Limit) }
    ensures held { IsGauge (codes "mcserver_buffer_bytes") (One Figure.Held) }
    ensures buffers { IsGauge (codes "mcserver_buffer_limit_bytes") (One Figure.Buffers) }
    ensures shelves { IsGauge (codes "mcserver_shelves") (One Figure.Shelves) }
    ensures homes { IsGauge (codes "mcserver_table_homes") (One Figure.Homes) }
    ensures running { IsGauge (codes "mcserver_growths_running") (One Figure.Running) }
    ensures left { IsGauge (codes "mcserver_growth_entries_left") (One Figure.Left) }
    ensures strays { IsGauge (codes "mcserver_stray_entries") (One Figure.Strays) }
    ensures version { IsVersion (codes "memcached_version") }
    ensures settings { IsGauge (codes "mcserver_settings_info") Numbers }
    ensures build { IsVersion (codes "mcserver_build_info") }
{}

/// States which counter each of these names is. It does nothing.
pub fn counters_of_the_page()
    ensures accepted { IsCounter (codes "memcached_connections_total") (One Figure.Accepted) }
    ensures rejected { IsCounter (codes "memcached_connections_rejected_total")
        (One (closed CloseReason.OneTooMany)) }
    ensures stored { IsCounter (codes "memcached_items_total")
        (One (Figure.Both Counted.SetStored Counted.CasHit)) }
    ensures evicted { IsCounter (codes "memcached_items_evicted_total") (One Figure.Zero) }
    ensures reclaimed { IsCounter (codes "memcached_items_reclaimed_total") (One Figure.Reclaimed) }
    ensures refused { IsCounter (codes "mcserver_refusals_total")
        (One (Figure.Count Counted.Refused)) }
    ensures too_large { IsCounter (codes "memcached_item_too_large_total")
        (One (Figure.Count Counted.TooLarge)) }
    ensures received { IsCounter (codes "memcached_read_bytes_total")
        (One (Figure.Count Counted.Received)) }
    ensures sent { IsCounter (codes "memcached_written_bytes_total")
        (One (Figure.Count Counted.Sent)) }
    ensures growths { IsCounter (codes "mcserver_growths_total") (One Figure.Growths) }
    ensures commands { IsCounter (codes "memcached_commands_total") Each }
    ensures closed { IsCounter (codes "mcserver_connections_closed_total") Each }
    ensures refused_by_class { IsCounter (codes "memcached_slab_items_outofmemory_total")
        Samples.Refused }
{}

/// States which number of each class of chunks each of these names is. It does nothing.
pub fn metrics_of_chunks()
    ensures size { IsGauge (codes "memcached_slab_chunk_size_bytes") (Slabs SlabFigure.Size) }
    ensures chunks_a_page { IsGauge (codes "memcached_slab_chunks_per_page")
        (Slabs SlabFigure.ChunksAPage) }
    ensures pages { IsGauge (codes "memcached_slab_current_pages") (Slabs SlabFigure.Pages) }
    ensures chunks { IsGauge (codes "memcached_slab_current_chunks") (Slabs SlabFigure.Chunks) }
    ensures used { IsGauge (codes "memcached_slab_chunks_used") (Slabs SlabFigure.Used) }
    ensures free { IsGauge (codes "memcached_slab_chunks_free") (Slabs SlabFigure.Free) }
{}

/// States which number of the process each of these names is. It does nothing.
pub fn metrics_of_the_process()
    ensures started { IsGauge (codes "process_start_time_seconds") (Process ProcessFigure.Started) }
    ensures most_fds { IsGauge (codes "process_max_fds") (Process ProcessFigure.MostFds) }
    ensures open_fds { IsGauge (codes "process_open_fds") (Process ProcessFigure.OpenFds) }
    ensures resident { IsGauge (codes "process_resident_memory_bytes")
        (Process ProcessFigure.Resident) }
    ensures virtual_size { IsGauge (codes "process_virtual_memory_bytes")
        (Process ProcessFigure.VirtualSize) }
    ensures cpu { IsCounter (codes "process_cpu_seconds_total") (Hundredths ProcessFigure.Cpu) }
{}

/// States which counter the page shows under each command and result. It does nothing.
pub fn labels_of_commands()
    ensures get_hit { IsCommand (codes "get") (codes "hit") (Figure.Count Counted.GetHit) }
    ensures get_miss { IsCommand (codes "get") (codes "miss") (Figure.Count Counted.GetMiss) }
    ensures set_hit { IsCommand (codes "set") (codes "hit")
        (Figure.Both Counted.SetStored Counted.SetNotStored) }
    ensures cas_hit { IsCommand (codes "cas") (codes "hit") (Figure.Count Counted.CasHit) }
    ensures cas_miss { IsCommand (codes "cas") (codes "miss") (Figure.Count Counted.CasMiss) }
    ensures cas_badval { IsCommand (codes "cas") (codes "badval") (Figure.Count Counted.CasBadval) }
    ensures delete_hit { IsCommand (codes "delete") (codes "hit") (Figure.Count Counted.DeleteHit) }
    ensures delete_miss { IsCommand (codes "delete") (codes "miss")
        (Figure.Count Counted.DeleteMiss) }
    ensures incr_hit { IsCommand (codes "incr") (codes "hit") (Figure.Count Counted.IncrHit) }
    ensures incr_miss { IsCommand (codes "incr") (codes "miss") (Figure.Count Counted.IncrMiss) }
    ensures decr_hit { IsCommand (codes "decr") (codes "hit") (Figure.Count Counted.DecrHit) }
    ensures decr_miss { IsCommand (codes "decr") (codes "miss") (Figure.Count Counted.DecrMiss) }
    ensures touch_hit { IsCommand (codes "touch") (codes "hit") (Figure.Count Counted.TouchHit) }
    ensures touch_miss { IsCommand (codes "touch") (codes "miss") (Figure.Count Counted.TouchMiss) }
    ensures flush_hit { IsCommand (codes "flush") (codes "hit") (Figure.Count Counted.Flush) }
{}

/// States under which label the page shows each reason of a close. It does nothing.
pub fn labels_of_closed_connections()
    ensures client_closed { IsReason (codes "client_closed") CloseReason.Ended }
    ensures session_over { IsReason (codes "session_over") CloseReason.SessionOver }
    ensures idle { IsReason (codes "idle") CloseReason.Idle }
    ensures read_fault { IsReason (codes "read_fault") CloseReason.ReadFault }
    ensures write_fault { IsReason (codes "write_fault") CloseReason.WriteFault }
    ensures one_too_many { IsReason (codes "one_too_many") CloseReason.OneTooMany }
    ensures no_descriptor { IsReason (codes "no_descriptor") CloseReason.NoDescriptor }
    ensures no_memory { IsReason (codes "no_memory") CloseReason.NoRoom }
    ensures listener_failed { IsReason (codes "listener_failed") CloseReason.ListenerFailed }
    ensures hoarding { IsReason (codes "hoarding") CloseReason.Hoarding }
    ensures line_too_long { IsReason (codes "line_too_long") CloseReason.LineTooLong }
    ensures stopped { IsReason (codes "stopped") CloseReason.Stopped }
    ensures out_of_memory { IsReason (codes "out_of_memory") CloseReason.OutOfMemory }
    ensures other_protocol { IsReason (codes "other_protocol") CloseReason.OtherProtocol }
{}

/// States which option each label of the settings is. It does nothing.
pub fn labels_of_settings()
    ensures threads { IsSetting (codes "{threads=\"") Figure.Workers }
    ensures conn_limit { IsSetting (codes "\",conn_limit=\"") Figure.Most }
    ensures idle_timeout { IsSetting (codes "\",idle_timeout_seconds=\"") Figure.IdleTimeout }
    ensures buffer_limit { IsSetting (codes "\",buffer_limit_bytes=\"") Figure.Buffers }
    ensures memory_limit { IsSetting (codes "\",memory_limit_bytes=\"") Figure.Limit }
    ensures max_item_size { IsSetting (codes "\",max_item_size_bytes=\"") Figure.Greatest }
    ensures shelves { IsSetting (codes "\",shelves=\"") Figure.Shelves }
{}
