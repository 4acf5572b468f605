// What is read of the scripts of alarms.
ghost use Rattle.mc_real.specs.Scripts.{MallocScriptsAreTaken};

/// The lines of answers of `malloc` are read as these answers, and no line is left.
pub fn malloc_scripts_are_taken()
    ensures { MallocScriptsAreTaken }
{}
