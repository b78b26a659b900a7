//! The law that both modules may be written (WebAssembly Core 2.0, chapter 5, "Binary Format").

ghost use Rattle.adapter_bytes.specs.Bytes.{EmittedAreWritable};

/// Both modules of the adapter may be written (WebAssembly Core 2.0, chapter 5), where the statements and locals of all stubs
/// are together at most 33,554,432.
pub fn emitted_are_writable()
    ensures { EmittedAreWritable }
{}
