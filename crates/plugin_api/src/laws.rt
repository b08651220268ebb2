// What the definitions give on small sheets. The function ensures it and does nothing.
ghost use Rattle.plugin_api.specs.Examples.{ShortWords, Shortened, Comments, Empty, Unnested, Nothing, OpenCursors};

/// The examples beside the definitions.
pub fn examples()
    ensures short_words { ShortWords }
    ensures shortened { Shortened }
    ensures comments { Comments }
    ensures empty { Empty }
    ensures unnested { Unnested }
    ensures nothing { Nothing }
    ensures open_cursors { OpenCursors }
{}
